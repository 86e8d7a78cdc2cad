// What is wrong with a panel and commands that make no map.
ghost use Rattle.switches.specs.Faults.{refusal};

use map::refusal::Refusal;
use thiserror::Error;

// Each case is the no to one question.
#[derive(Clone, Copy, PartialEq, Eq, Debug, Error)]
pub enum SwitchFault {
    #[error("there must be 1 to 12 switches")]
    WrongSwitchCount,
    #[error("there are more than 32 commands")]
    TooManyCommands,
    // a mask has a switch that is not there, or a command turns one switch both on and off
    #[error("a mask names no switch, or a command turns one both on and off")]
    WrongMask,
}

impl Refusal for SwitchFault {
    ghost told = { λ f. refusal f };

    fn number(self) -> u8 {
        match self {
            SwitchFault::WrongSwitchCount => 5,
            SwitchFault::TooManyCommands => 6,
            SwitchFault::WrongMask => 7,
        }
    }

    fn carried(self) -> Option<u32> {
        None
    }
}
