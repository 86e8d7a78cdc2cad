// Two maps side by side, with what keeps them from being one.
ghost use Rattle.std.specs.Prelude.{◌≡◌, None};
ghost use Rattle.joint.specs.Pairs.{questions, Numbered, Uncapped};
ghost use Rattle.map.specs.Questions.{first_no};

use crate::fault::JointFault;
use map::Map;
use map::made::Made;
use map::read::longest_list;

// The joint map of two maps. Two that make none are kept too: such a map has size 0, and tells its fault.
#[derive(Drop)]
pub struct JointMap<A, B> {
    pub(crate) left: A,
    pub(crate) right: B,
    pub(crate) fault: Option<JointFault>,
}

// What keeps two maps from being one, if anything.
fn pair_fault<A: Map, B: Map>(left: &A, right: &B) -> Option<JointFault>
    ensures { result ≡ first_no (questions (A.Map.meaning left.now) (B.Map.meaning right.now)) }
{
    if left.size() * right.size() > 4096 {
        return Some(JointFault::TooManyStates);
    }
    if longest_list(left) * longest_list(right) > 32768 {
        return Some(JointFault::ListsTooLong);
    }
    None
}

impl<A: Map, B: Map> JointMap<A, B> {
    // The joint of two maps, whatever they are. Where it is made, no cap on its size or its lists is ever reached.
    pub fn new(left: A, right: B) -> Self
        ensures left { result.left ≡ left }
        ensures right { result.right ≡ right }
        ensures fault { result.fault ≡ first_no (questions (A.Map.meaning left) (B.Map.meaning right)) }
        ensures uncapped { result.fault ≡ None → Uncapped (A.Map.meaning left) (B.Map.meaning right) }
        ensures numbered { Numbered (A.Map.meaning left) (B.Map.meaning right) }
    {
        let fault = pair_fault(&left, &right);
        JointMap { left, right, fault }
    }
}

impl<A, B> Made for JointMap<A, B> {
    type Fault = JointFault;

    ghost why = { λ m. m.fault };

    fn fault(&self) -> Option<JointFault> {
        self.fault
    }
}
