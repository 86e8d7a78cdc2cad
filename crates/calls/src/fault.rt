// Why a session refuses a call.
ghost use Rattle.std.specs.Prelude.{◌≡◌};
ghost use Rattle.calls.specs.Faults.{refusal, handed_on};

use map::refusal::Refusal;
use rules::fault::RuleFault;
use thiserror::Error;

// Each case is the no to one question. Those of the rule list are here under the same names.
#[derive(Clone, Copy, PartialEq, Eq, Debug, Error)]
pub enum SessionFault {
    #[error("the map has no state")]
    NoState,
    #[error("the sheet has fewer words than the map has states")]
    ShortSheet,
    #[error("there are 64 rows already")]
    TooManyRows,
    #[error("a row names itself or a later row")]
    NamesLaterRow,
    #[error("every row is marked")]
    NothingToMark,
    #[error("there is no such state")]
    NoSuchState,
    #[error("the row is not marked")]
    NotMarked,
    #[error("the row is no until")]
    NotUntil,
    #[error("the work table has fewer entries than the map has states")]
    ShortWork,
    #[error("there is no run")]
    NoRun,
    // for a run of this length
    #[error("the run table has too few entries")]
    ShortRun(u32),
}

impl Refusal for SessionFault {
    ghost told = { λ f. refusal f };

    fn number(self) -> u8 {
        match self {
            SessionFault::NoState => 16,
            SessionFault::ShortSheet => 17,
            SessionFault::TooManyRows => 18,
            SessionFault::NamesLaterRow => 19,
            SessionFault::NothingToMark => 20,
            SessionFault::NoSuchState => 21,
            SessionFault::NotMarked => 22,
            SessionFault::NotUntil => 23,
            SessionFault::ShortWork => 24,
            SessionFault::NoRun => 25,
            SessionFault::ShortRun(_) => 26,
        }
    }

    fn carried(self) -> Option<u32> {
        match self {
            SessionFault::ShortRun(n) => Some(n),
            _ => None,
        }
    }
}

// A refusal of the rule list is handed on.
impl From<RuleFault> for SessionFault {
    ghost from_gives = { λ fault e. e ≡ handed_on fault };

    fn from(fault: RuleFault) -> SessionFault {
        match fault {
            RuleFault::TooManyRows => SessionFault::TooManyRows,
            RuleFault::NamesLaterRow => SessionFault::NamesLaterRow,
        }
    }
}
