// Asking after labels.
ghost use Rattle.std.specs.Prelude.{◌≡◌, ℕ, true, Decides};
ghost use Rattle.calls.specs.Effects.{alone, Gives};
ghost use Rattle.calls.specs.declared.call.Answer.TheVariants as answer;
ghost use Rattle.calls.specs.declared.call.Call.TheVariants as call;
ghost use Rattle.lengths.specs.Sheets.{by_sheet};
ghost use Rattle.map.specs.Meaning.{structure};
ghost use Rattle.session.specs.Sessions.{state, answered};

use crate::held::Session;
use calls::fault::SessionFault;
use lengths::labels::labelled;
use look::Look;
use map::Map;

// Whether every start has the label of row r.
fn all_starts<M: Map>(map: &M, sheet: &[u64], r: u32) -> bool
    ensures { Decides result ((s : ℕ) → (M.meaning map.now).start s ≡ true → by_sheet sheet.now r s) }
{
    for s in 0..map.size() {
        if map.is_start(s) && !labelled(sheet, r, s) {
            return false;
        }
    }
    true
}

impl Session {
    // The label of row r at state s.
    pub fn label<M: Map>(
        &self,
        map: &M,
        sheet: &[u64],
        s: u32,
        r: u32,
    ) -> Result<bool, SessionFault>
        ensures { Gives (structure M.L.Look.sign (M.meaning map.now)) (state self.now) (alone sheet.now) (call.Label s r) (answered answer.Label result) (state self.now) (alone sheet.now) }
    {
        let n = map.size();
        if sheet.len() < n as usize {
            return Err(SessionFault::ShortSheet);
        }
        if s >= n {
            return Err(SessionFault::NoSuchState);
        }
        if r >= self.marked {
            return Err(SessionFault::NotMarked);
        }
        Ok(labelled(sheet, r, s))
    }

    // Whether every start has the label of row r; so also where there is no start.
    pub fn verdict<M: Map>(&self, map: &M, sheet: &[u64], r: u32) -> Result<bool, SessionFault>
        ensures { Gives (structure M.L.Look.sign (M.meaning map.now)) (state self.now) (alone sheet.now) (call.Verdict r) (answered answer.Verdict result) (state self.now) (alone sheet.now) }
    {
        if sheet.len() < map.size() as usize {
            return Err(SessionFault::ShortSheet);
        }
        if r >= self.marked {
            return Err(SessionFault::NotMarked);
        }
        Ok(all_starts(map, sheet, r))
    }
}
