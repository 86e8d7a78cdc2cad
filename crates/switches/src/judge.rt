// Whether a panel and commands make a map.
ghost use Rattle.std.specs.Prelude.{◌≡◌};
ghost use Rattle.map.specs.Questions.{first_no};
ghost use Rattle.switches.specs.Masks.{within};
ghost use Rattle.switches.specs.Switched.{right_command, right_commands, right_panel, questions};

use crate::command::Command;
use crate::fault::SwitchFault;
use crate::panel::Panel;

// Whether the mask has no switch from n on.
fn is_within(n: u32, mask: u32) -> bool
    ensures { result ≡ within n mask }
{
    n >= 32 || mask < 1 << n
}

// Whether the masks of the command are as required.
fn command_is_right(n: u32, c: Command) -> bool
    ensures { result ≡ right_command n c }
{
    let needs = is_within(n, c.need_on) & is_within(n, c.need_off);
    let turns = is_within(n, c.turn_on) & is_within(n, c.turn_off);
    needs & turns & (c.turn_off & c.turn_on == 0)
}

// Whether the masks of all commands are as required.
fn commands_are_right(n: u32, commands: &[Command]) -> bool
    ensures { result ≡ right_commands n commands.now }
{
    commands.iter().all(|c| command_is_right(n, *c))
}

// Whether the masks of the panel are as required.
fn panel_is_right(panel: Panel) -> bool
    ensures { result ≡ right_panel panel }
{
    is_within(panel.bits, panel.visible)
        && is_within(panel.bits, panel.start_on)
        && is_within(panel.bits, panel.start_off)
}

// What is wrong with the panel and the commands, if anything.
pub(crate) fn switch_fault(panel: Panel, commands: &[Command]) -> Option<SwitchFault>
    ensures { result ≡ first_no (questions panel commands.now) }
{
    if panel.bits < 1 || panel.bits > 12 {
        return Some(SwitchFault::WrongSwitchCount);
    }
    if commands.len() > 32 {
        return Some(SwitchFault::TooManyCommands);
    }
    if !panel_is_right(panel) || !commands_are_right(panel.bits, commands) {
        return Some(SwitchFault::WrongMask);
    }
    None
}
