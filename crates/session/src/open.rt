// Opening a session.
ghost use Rattle.std.specs.Prelude.{◌≡◌, ◌≤◌, length};
ghost use Rattle.calls.specs.Histories.{Begins};
ghost use Rattle.calls.specs.Opening.{Cleared, Opens};
ghost use Rattle.map.specs.Meaning.{structure};
ghost use Rattle.session.specs.Sessions.{kept};

use crate::held::Session;
use calls::fault::SessionFault;
use look::Look;
use map::Map;
use rules::list::RuleList;

// Sets the word of each state to 0.
fn clear<M: Map>(map: &M, sheet: &mut [u64])
    requires { (M.meaning map.now).size ≤ length sheet.old }
    ensures { Cleared (M.meaning map.now).size sheet.old sheet.new }
{
    sheet[..map.size() as usize].fill(0);
}

impl Session {
    // A session without rows on the map, and a sheet without labels.
    pub fn open<M: Map>(map: &M, sheet: &mut [u64]) -> Result<Session, SessionFault>
        ensures opens { Opens (structure M.L.Look.sign (M.meaning map.now)) sheet.old (kept result) sheet.new }
        ensures begins { Begins (structure M.L.Look.sign (M.meaning map.now)) (kept result) sheet.new }
    {
        if map.size() == 0 {
            return Err(SessionFault::NoState);
        }
        if sheet.len() < map.size() as usize {
            return Err(SessionFault::ShortSheet);
        }
        clear(map, sheet);
        Ok(Session {
            rules: RuleList::new(),
            marked: 0,
        })
    }
}
