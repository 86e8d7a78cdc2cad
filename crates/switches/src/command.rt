// A command: the switches that it needs, and those that it turns.
ghost use Rattle.std.specs.Prelude.{◌≡◌, ◌&&◌};
ghost use Rattle.switches.specs.Commands.{is_open, target_of};
ghost use Rattle.switches.specs.Masks.{all_on, all_off};

// Each mask is a set of switches: switch j is in it where bit j is 1.
#[derive(Clone, Copy)]
pub struct Command {
    // must be on
    pub need_on: u32,
    // must be off
    pub need_off: u32,
    // are set
    pub turn_on: u32,
    // are cleared
    pub turn_off: u32,
}

// Whether all switches of `on` are on at s, and all of `off` are off.
pub(crate) fn meets(s: u32, on: u32, off: u32) -> bool
    ensures { result ≡ all_on on s && all_off off s }
{
    s & on == on && s & off == 0
}

impl Command {
    // Whether the command is open at s.
    pub fn is_open(self, s: u32) -> bool
        ensures { result ≡ is_open self s }
    {
        meets(s, self.need_on, self.need_off)
    }

    // Where the command leads from s.
    pub fn target(self, s: u32) -> u32
        ensures { result ≡ target_of self s }
    {
        (s & !self.turn_off) | self.turn_on
    }
}
