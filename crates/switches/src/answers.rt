// What a switch map answers.
ghost use Rattle.std.specs.Prelude.{◌≡◌, nat_lt};
ghost use Rattle.switches.specs.Meant.{meant, within_bounds};

use crate::command::meets;
use crate::made::SwitchMap;
use crate::open::{count_open, open_target};
use look::switch::SwitchLook;
use map::Map;

impl SwitchMap<'_> {
    // Whether there is a state s.
    fn has(&self, s: u32) -> bool
        ensures { result ≡ nat_lt s (meant self.now).size }
    {
        self.fault.is_none() && s < 1 << self.panel.bits
    }
}

impl<'a> Map for SwitchMap<'a> {
    type L = SwitchLook;

    ghost meaning = { λ m. meant m };

    ghost bounded = { λ m. within_bounds m };

    fn size(&self) -> u32 {
        match self.fault {
            None => 1 << self.panel.bits,
            Some(_) => 0,
        }
    }

    fn is_start(&self, s: u32) -> bool {
        self.has(s) && meets(s, self.panel.start_on, self.panel.start_off)
    }

    fn look_of(&self, s: u32) -> Option<SwitchLook> {
        if self.has(s) {
            Some(SwitchLook {
                marks: s & self.panel.visible,
            })
        } else {
            None
        }
    }

    fn list_len(&self, s: u32) -> u32 {
        if self.has(s) {
            count_open(self.commands, s)
        } else {
            0
        }
    }

    fn entry(&self, s: u32, k: u32) -> Option<u32> {
        if self.has(s) {
            open_target(self.commands, s, k)
        } else {
            None
        }
    }
}
