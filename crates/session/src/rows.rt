// Adding rows, and marking them.
ghost use Rattle.std.specs.Prelude.{◌≡◌};
ghost use Rattle.calls.specs.Effects.{alone, Gives};
ghost use Rattle.calls.specs.declared.call.Answer.TheVariants as answer;
ghost use Rattle.calls.specs.declared.call.Call.TheVariants as call;
ghost use Rattle.map.specs.Meaning.{structure};
ghost use Rattle.session.specs.Sessions.{state, answered, marking, ReachBelow};

use crate::held::Session;
use calls::fault::SessionFault;
use look::Look;
use map::Map;
use marking::rows::mark_row;
use stl::row::Row;

// The row that was marked, and its reach.
#[derive(Clone, Copy, PartialEq, Eq, Debug)]
pub struct Marked {
    pub row: u32,
    pub reach: u32,
}

impl Session {
    // Appends the row, and answers its number.
    pub fn add<M: Map>(&mut self, map: &M, sheet: &[u64], row: Row) -> Result<u32, SessionFault>
        ensures { Gives (structure M.L.Look.sign (M.meaning map.now)) (state self.old) (alone sheet.now) (call.Add row) (answered answer.Added result) (state self.new) (alone sheet.now) }
    {
        if sheet.len() < map.size() as usize {
            return Err(SessionFault::ShortSheet);
        }
        let mut rules = self.rules;
        let r = rules.add(row)?;
        *self = Session {
            rules,
            marked: self.marked,
        };
        Ok(r)
    }

    // Gives the next row its labels, and answers the row and its reach.
    pub fn mark<M: Map>(&mut self, map: &M, sheet: &mut [u64]) -> Result<Marked, SessionFault>
        ensures gives { Gives (structure M.L.Look.sign (M.meaning map.now)) (state self.old) (alone sheet.old) call.Mark (answered marking result) (state self.new) (alone sheet.new) }
        ensures below { ReachBelow (M.meaning map.now).size result }
    {
        if sheet.len() < map.size() as usize {
            return Err(SessionFault::ShortSheet);
        }
        let r = self.marked;
        let Some(row) = self.rules.row(r) else {
            return Err(SessionFault::NothingToMark);
        };
        let reach = mark_row(map, sheet, r, row);
        self.marked = r + 1;
        Ok(Marked { row: r, reach })
    }
}
