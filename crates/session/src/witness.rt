// Shortest runs.
ghost use Rattle.std.specs.Prelude.{◌≡◌, ◌<◌, ◌≤◌, false, length, MatchOption};
ghost use Rattle.calls.specs.Answers.{Found};
ghost use Rattle.calls.specs.Effects.{tables, Sought, Gives};
ghost use Rattle.calls.specs.declared.call.Answer.TheVariants as answer;
ghost use Rattle.calls.specs.declared.call.Call.TheVariants as call;
ghost use Rattle.lengths.specs.Sheets.{by_sheet};
ghost use Rattle.map.specs.Meaning.{structure};
ghost use Rattle.session.specs.Sessions.{rows_of, state, answered};
ghost use Rattle.stl.specs.Rows.{is_until, row_at};
ghost use Rattle.stl.specs.declared.row.Row.TheVariants as row;

use crate::held::Session;
use calls::fault::SessionFault;
use lengths::rounds::{NONE, Until};
use lengths::runs::write_run;
use look::Look;
use map::Map;
use stl::row::Row;

// Fills the work table for the until, and writes a shortest run from s if there is one and there is room for it.
fn show_run<M: Map>(
    until: &Until<'_, M>,
    s: u32,
    work: &mut [u32],
    run: &mut [u32],
) -> Result<u32, SessionFault>
    requires state { s < (M.meaning until.now.map.now).size }
    requires entries { (M.meaning until.now.map.now).size ≤ length work.old }
    ensures found { Found (structure M.L.Look.sign (M.meaning until.now.map.now)) (by_sheet until.now.sheet.now until.now.a) (by_sheet until.now.sheet.now until.now.b) s (length run.old) (answered answer.Witness result) }
    ensures sought { Sought (structure M.L.Look.sign (M.meaning until.now.map.now)) (by_sheet until.now.sheet.now until.now.a) (by_sheet until.now.sheet.now until.now.b) s (tables until.now.sheet.now work.old run.old) (tables until.now.sheet.now work.new run.new) (answered answer.Witness result) }
{
    until.lengths(work);
    let length = work[s as usize];
    if length == NONE {
        return Err(SessionFault::NoRun);
    }
    if run.len() <= length as usize {
        return Err(SessionFault::ShortRun(length));
    }
    write_run(until.map, s, work, run);
    Ok(length)
}

impl Session {
    // The operands of the marked row r, where it is an until.
    pub(crate) fn operands(&self, r: u32) -> Option<(u32, u32)>
        requires { r < self.now.marked }
        ensures { MatchOption result (is_until (row_at (rows_of self.now.rules) r) ≡ false) (λ p. row_at (rows_of self.now.rules) r ≡ row.Until p.0 p.1) }
    {
        match self.rules.row(r)? {
            Row::Until(a, b) => Some((a, b)),
            _ => None,
        }
    }

    // Writes a shortest run from s for the until row r, s first, and answers its length. The work table is filled with each
    // state's shortest length, NONE where it has no run, also where there is no run from s or no room for it.
    pub fn witness<M: Map>(
        &self,
        map: &M,
        sheet: &[u64],
        s: u32,
        r: u32,
        work: &mut [u32],
        run: &mut [u32],
    ) -> Result<u32, SessionFault>
        ensures { Gives (structure M.L.Look.sign (M.meaning map.now)) (state self.now) (tables sheet.now work.old run.old) (call.Witness s r) (answered answer.Witness result) (state self.now) (tables sheet.now work.new run.new) }
    {
        let n = map.size();
        if sheet.len() < n as usize {
            return Err(SessionFault::ShortSheet);
        }
        if s >= n {
            return Err(SessionFault::NoSuchState);
        }
        if r >= self.marked {
            return Err(SessionFault::NotMarked);
        }
        let Some((a, b)) = self.operands(r) else {
            return Err(SessionFault::NotUntil);
        };
        if work.len() < n as usize {
            return Err(SessionFault::ShortWork);
        }
        show_run(&Until { map, sheet, a, b }, s, work, run)
    }
}
