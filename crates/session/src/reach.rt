// Asking after rows: which there are, how many are marked, and the reach of one.
ghost use Rattle.std.specs.Prelude.{◌≡◌};
ghost use Rattle.map.specs.Meaning.{structure};
ghost use Rattle.session.specs.Reaches.{ReachAnswers};
ghost use Rattle.session.specs.Sessions.{rows_of, state};

use crate::held::Session;
use calls::fault::SessionFault;
use lengths::rounds::{NONE, Until};
use look::Look;
use map::Map;
use rules::list::RuleList;

impl Session {
    // The rows, as a rule list of their own.
    pub fn rules(&self) -> RuleList
        ensures { rows_of result ≡ (state self.now).rows }
    {
        self.rules
    }

    // How many rows are marked.
    pub fn marked(&self) -> u32
        ensures { result ≡ (state self.now).marked }
    {
        self.marked
    }

    // The reach of the marked row r, by the labels of its operands that are in the sheet now.
    pub fn reach<M: Map>(&self, map: &M, sheet: &[u64], r: u32) -> Result<u32, SessionFault>
        ensures { ReachAnswers (structure M.L.Look.sign (M.meaning map.now)) (state self.now) sheet.now r result }
    {
        if sheet.len() < map.size() as usize {
            return Err(SessionFault::ShortSheet);
        }
        if r >= self.marked {
            return Err(SessionFault::NotMarked);
        }
        let Some((a, b)) = self.operands(r) else {
            return Ok(0);
        };
        let mut work = [NONE; 4096];
        Ok(Until { map, sheet, a, b }.lengths(&mut work))
    }
}
