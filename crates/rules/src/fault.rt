// Why a row is not added.
ghost use Rattle.rules.specs.Faults.{refusal};

use map::refusal::Refusal;
use thiserror::Error;

#[derive(Clone, Copy, PartialEq, Eq, Debug, Error)]
pub enum RuleFault {
    #[error("there are 64 rows already")]
    TooManyRows,
    #[error("a row names itself or a later row")]
    NamesLaterRow,
}

impl Refusal for RuleFault {
    ghost told = { λ f. refusal f };

    fn number(self) -> u8 {
        match self {
            RuleFault::TooManyRows => 18,
            RuleFault::NamesLaterRow => 19,
        }
    }

    fn carried(self) -> Option<u32> {
        None
    }
}
