// The four tables of a listed map, with what is wrong with them.
ghost use Rattle.std.specs.Prelude.{◌≡◌};
ghost use Rattle.listed.specs.Tables.{tables, questions};
ghost use Rattle.map.specs.Questions.{first_no};

use crate::fault::ListedFault;
use crate::judge::table_fault;
use map::made::Made;

// A map over lent tables, which stay apart, as the supplier wrote them. Tables that make no map are kept too: such a map has size 0, and tells its fault.
#[derive(Drop)]
pub struct ListedMap<'a, L> {
    pub(crate) looks: &'a [L],
    pub(crate) starts: &'a [u8],
    pub(crate) firsts: &'a [u32],
    pub(crate) targets: &'a [u32],
    pub(crate) fault: Option<ListedFault>,
    // the fault is the first no to what is asked of the tables
    ghost judged: { fault ≡ first_no (questions (tables looks.now starts.now firsts.now targets.now)) },
}

impl<'a, L> ListedMap<'a, L> {
    // The map of the four tables, whatever they hold.
    pub fn new(looks: &'a [L], starts: &'a [u8], firsts: &'a [u32], targets: &'a [u32]) -> Self
        ensures looks { result.looks.now ≡ looks.now }
        ensures starts { result.starts.now ≡ starts.now }
        ensures firsts { result.firsts.now ≡ firsts.now }
        ensures targets { result.targets.now ≡ targets.now }
        ensures fault { result.fault ≡ first_no (questions (tables looks.now starts.now firsts.now targets.now)) }
    {
        let fault = table_fault(looks, starts, firsts, targets);
        ListedMap {
            looks,
            starts,
            firsts,
            targets,
            fault,
        }
    }
}

impl<'a, L> Made for ListedMap<'a, L> {
    type Fault = ListedFault;

    ghost why = { λ m. m.fault };

    fn fault(&self) -> Option<ListedFault> {
        self.fault
    }
}
