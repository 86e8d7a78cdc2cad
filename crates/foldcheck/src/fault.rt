// Why an offered fold is refused.
ghost use Rattle.foldcheck.specs.Faults.{refusal};

use map::refusal::Refusal;
use thiserror::Error;

// Each case is the no to one question, with the lowest state that has one.
#[derive(Clone, Copy, PartialEq, Eq, Debug, Error)]
pub enum FoldFault {
    #[error("the table must have exactly as many entries as the full map has states")]
    WrongLength,
    #[error("the class of the state is no folded state")]
    NoClass(u32),
    #[error("the state and its class have not the same look")]
    OtherLook(u32),
    #[error("a move of the state has no move between the classes")]
    MoveLost(u32),
    #[error("a move of the state's class is no move of the state")]
    MoveAdded(u32),
    #[error("the class of the start is no start")]
    StartLost(u32),
    #[error("the folded start is the class of no start")]
    StartAdded(u32),
    #[error("the folded state is the class of no state")]
    NotAClass(u32),
}

impl Refusal for FoldFault {
    ghost told = { λ f. refusal f };

    fn number(self) -> u8 {
        match self {
            FoldFault::WrongLength => 27,
            FoldFault::NoClass(_) => 28,
            FoldFault::OtherLook(_) => 29,
            FoldFault::MoveLost(_) => 30,
            FoldFault::MoveAdded(_) => 31,
            FoldFault::StartLost(_) => 32,
            FoldFault::StartAdded(_) => 33,
            FoldFault::NotAClass(_) => 34,
        }
    }

    fn carried(self) -> Option<u32> {
        match self {
            FoldFault::WrongLength => None,
            FoldFault::NoClass(s)
            | FoldFault::OtherLook(s)
            | FoldFault::MoveLost(s)
            | FoldFault::MoveAdded(s)
            | FoldFault::StartLost(s)
            | FoldFault::StartAdded(s)
            | FoldFault::NotAClass(s) => Some(s),
        }
    }
}
