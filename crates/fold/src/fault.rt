// Why two class tables are not chained.
ghost use Rattle.fold.specs.Faults.{refusal};

use map::refusal::Refusal;
use thiserror::Error;

// Each case is the no to one question. Neither carries a value.
#[derive(Clone, Copy, PartialEq, Eq, Debug, Error)]
pub enum ChainFault {
    #[error("the output must have exactly as many entries as the first table")]
    WrongLength,
    #[error("an entry of the first table has no entry in the second")]
    NoEntry,
}

impl Refusal for ChainFault {
    ghost told = { λ f. refusal f };

    fn number(self) -> u8 {
        match self {
            ChainFault::WrongLength => 35,
            ChainFault::NoEntry => 36,
        }
    }

    fn carried(self) -> Option<u32> {
        None
    }
}
