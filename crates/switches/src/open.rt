// The commands that are open at a state, in command order.
ghost use Rattle.std.specs.Prelude.{◌≡◌, ◌≤◌, length};
ghost use Rattle.std.specs.List.{slice_get};
ghost use Rattle.switches.specs.Commands.{targets_of};

use crate::command::Command;

// How many commands are open at s.
pub(crate) fn count_open(commands: &[Command], s: u32) -> u32
    requires { length commands.now ≤ 32 }
    ensures { result ≡ length (targets_of commands.now s) }
{
    commands.iter().map(|c| u32::from(c.is_open(s))).sum()
}

// The target of the open command at place k among those that are open at s.
pub(crate) fn open_target(commands: &[Command], s: u32, k: u32) -> Option<u32>
    ensures { result ≡ slice_get (targets_of commands.now s) k }
{
    let open = commands.iter().filter(|c| c.is_open(s));
    open.map(|c| c.target(s)).nth(k as usize)
}
