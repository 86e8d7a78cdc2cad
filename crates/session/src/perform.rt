// Any call, as a value.
ghost use Rattle.calls.specs.Claims.{OneMap, AfterAnyCalls, moment};
ghost use Rattle.calls.specs.Effects.{tables, Gives};
ghost use Rattle.map.specs.Meaning.{structure};
ghost use Rattle.session.specs.Sessions.{state};

use crate::held::Session;
use calls::call::{Answer, Call};
use look::Look;
use map::Map;

impl Session {
    // Makes the call, and gives its answer. The map and the tables are lent to each call one by one, so that a caller may lend others.
    fn make<M: Map>(
        &mut self,
        map: &M,
        sheet: &mut [u64],
        work: &mut [u32],
        run: &mut [u32],
        asked: Call,
    ) -> Answer
        ensures { Gives (structure M.L.Look.sign (M.meaning map.now)) (state self.old) (tables sheet.old work.old run.old) asked result (state self.new) (tables sheet.new work.new run.new) }
    {
        match asked {
            Call::Add(row) => {
                let outcome = self.add(map, sheet, row);
                outcome.map_or_else(Answer::Refused, Answer::Added)
            }
            Call::Mark => {
                let outcome = self.mark(map, sheet);
                outcome.map_or_else(Answer::Refused, |m| Answer::Marked(m.row, m.reach))
            }
            Call::Label(s, r) => {
                let outcome = self.label(map, sheet, s, r);
                outcome.map_or_else(Answer::Refused, Answer::Label)
            }
            Call::Verdict(r) => {
                let outcome = self.verdict(map, sheet, r);
                outcome.map_or_else(Answer::Refused, Answer::Verdict)
            }
            Call::Witness(s, r) => {
                let outcome = self.witness(map, sheet, s, r, work, run);
                outcome.map_or_else(Answer::Refused, Answer::Witness)
            }
        }
    }

    // Makes the call, and gives its answer. After any list of calls of the session, each on the outcome of those before, the
    // answer is the logic's, a run that is shown is a shortest one, and each label of a marked row is on exactly where the
    // state satisfies the row.
    pub fn perform<M: Map>(
        &mut self,
        map: &M,
        sheet: &mut [u64],
        work: &mut [u32],
        run: &mut [u32],
        asked: Call,
    ) -> Answer
        ensures gives { Gives (structure M.L.Look.sign (M.meaning map.now)) (state self.old) (tables sheet.old work.old run.old) asked result (state self.new) (tables sheet.new work.new run.new) }
        ensures logic { AfterAnyCalls (structure M.L.Look.sign (M.meaning map.now)) (moment (state self.old) (tables sheet.old work.old run.old) asked result (state self.new) (tables sheet.new work.new run.new)) }
        ensures always { OneMap }
    {
        self.make(map, sheet, work, run, asked)
    }
}
