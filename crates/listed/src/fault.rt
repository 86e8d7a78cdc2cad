// What is wrong with tables that make no map.
ghost use Rattle.listed.specs.Faults.{refusal};

use map::refusal::Refusal;
use thiserror::Error;

// Each case is the no to one question; an entry is counted from 0 in its table.
#[derive(Clone, Copy, PartialEq, Eq, Debug, Error)]
pub enum ListedFault {
    #[error("there are more than 4096 looks")]
    TooManyLooks,
    #[error("there must be one start byte for each look, and one first more")]
    WrongLengths,
    // this entry of the firsts is the lowest at fault
    #[error("firsts begin at 0, never fall, and end at the number of targets")]
    WrongFirst(u32),
    // this entry of the targets is the lowest at fault
    #[error("a target is no state of the map")]
    WrongTarget(u32),
}

impl Refusal for ListedFault {
    ghost told = { λ f. refusal f };

    fn number(self) -> u8 {
        match self {
            ListedFault::TooManyLooks => 1,
            ListedFault::WrongLengths => 2,
            ListedFault::WrongFirst(_) => 3,
            ListedFault::WrongTarget(_) => 4,
        }
    }

    fn carried(self) -> Option<u32> {
        match self {
            ListedFault::TooManyLooks | ListedFault::WrongLengths => None,
            ListedFault::WrongFirst(i) | ListedFault::WrongTarget(i) => Some(i),
        }
    }
}
