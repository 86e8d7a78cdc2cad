// Why two maps make no joint map.
ghost use Rattle.joint.specs.Faults.{refusal};

use map::refusal::Refusal;
use thiserror::Error;

// Each case is the no to one question. Neither carries a value.
#[derive(Clone, Copy, PartialEq, Eq, Debug, Error)]
pub enum JointFault {
    #[error("the joint would have more than 4096 states")]
    TooManyStates,
    #[error("the longest list of the joint might have more than 32768 entries")]
    ListsTooLong,
}

impl Refusal for JointFault {
    ghost told = { λ f. refusal f };

    fn number(self) -> u8 {
        match self {
            JointFault::TooManyStates => 8,
            JointFault::ListsTooLong => 9,
        }
    }

    fn carried(self) -> Option<u32> {
        None
    }
}
