// Why a text is not saved.
ghost use Rattle.writing.specs.Faults.{refusal};

use map::refusal::Refusal;
use thiserror::Error;

#[derive(Clone, Copy, PartialEq, Eq, Debug, Error)]
pub enum SaveFault {
    #[error("the text is longer than the buffer")]
    NoRoom,
}

impl Refusal for SaveFault {
    ghost told = { λ f. refusal f };

    fn number(self) -> u8 {
        match self {
            SaveFault::NoRoom => 37,
        }
    }

    fn carried(self) -> Option<u32> {
        None
    }
}
