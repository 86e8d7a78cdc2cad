// What a map that was made tells of itself.
use map::Map;
use map::made::Made;
use map::refusal::Refusal;

// Its size; and where it was refused, the number of the refusal and what that carries.
pub type Told = (u32, Option<(u8, Option<u32>)>);

pub(crate) fn told_of<M: Map + Made>(map: &M) -> Told {
    let refused = map.fault().map(|fault| (fault.number(), fault.carried()));
    (map.size(), refused)
}
