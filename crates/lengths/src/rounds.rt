// Shortest lengths of the runs of an until, round by round.
ghost use Rattle.std.specs.Prelude.{◌≡◌, ℕ, ◌<◌, ◌≤◌, length, Decides, MatchOption, ◌≢◌, slice_index};
ghost use Rattle.lengths.specs.Rounds.{Round, Due, Begun, Swept};
ghost use Rattle.lengths.specs.Sheets.{by_sheet};
ghost use Rattle.lengths.specs.Tables.{Filled};
ghost use Rattle.map.specs.Meaning.{structure};
ghost use Rattle.stl.specs.Structures.{Move};
ghost use Rattle.stl.specs.Until.{Greatest};

use look::Look;
use look::word::is_on;
use map::Map;
use map::read::first_target;

// The entry of a state that has no run. Work tables are lent, with entries of 32 bits, so it is a number and no Option.
pub const NONE: u32 = 4294967295;

// The first target of s whose entry is d, if there is one.
pub(crate) fn step_to<M: Map>(map: &M, s: u32, work: &[u32], d: u32) -> Option<u32>
    requires { (M.meaning map.now).size ≤ length work.now }
    ensures { MatchOption result ((t : ℕ) → Move (structure M.L.Look.sign (M.meaning map.now)) s t → slice_index work.now t ≢ d) (λ t. Move (structure M.L.Look.sign (M.meaning map.now)) s t × (slice_index work.now t ≡ d)) }
{
    first_target(map, s, |t| work[t as usize] == d)
}

// Row a until row b on a map, by the labels in a sheet. The work table stays beside it, with a line in each contract that it covers the
// states: a struct that held it would have to promise in each method that it is still the same table.
#[derive(Clone, Copy)]
pub struct Until<'a, M> {
    pub map: &'a M,
    pub sheet: &'a [u64],
    pub a: u32,
    pub b: u32,
}

impl<'a, M: Map> Until<'a, M> {
    // Whether s, which has a word in the sheet, gets the length d + 1: it has none yet, it has label a, and a move leads to a state of length d.
    fn due(&self, s: u32, work: &[u32], d: u32) -> bool
        requires state { s < (M.meaning self.now.map.now).size }
        requires entries { (M.meaning self.now.map.now).size ≤ length work.now }
        requires word { s < length self.now.sheet.now }
        ensures { Decides result (Due (structure M.L.Look.sign (M.meaning self.now.map.now)) (by_sheet self.now.sheet.now self.now.a) work.now d s) }
    {
        work[s as usize] == NONE
            && is_on(self.sheet[s as usize], self.a)
            && step_to(self.map, s, work, d).is_some()
    }

    // Round 0: length 0 for the states with label b; those past the sheet have no label. Written by index: the state is wanted beside its
    // entry, and of what is written through `iter_mut().enumerate()` a proof knows nothing.
    fn first_round(&self, work: &mut [u32])
        requires { (M.meaning self.now.map.now).size ≤ length work.old }
        ensures { Begun (structure M.L.Look.sign (M.meaning self.now.map.now)) (by_sheet self.now.sheet.now self.now.a) (by_sheet self.now.sheet.now self.now.b) (M.meaning self.now.map.now).size work.old work.new }
    {
        let Until { map, sheet, b, .. } = *self;
        let size = map.size() as usize;
        let words = size.min(sheet.len());
        for s in 0..words {
            work[s] = if is_on(sheet[s], b) { 0 } else { NONE };
        }
        for s in words..size {
            work[s] = NONE;
        }
    }

    // Round d + 1: length d + 1 for the states that are due, all of which have a word in the sheet. Answers whether there was one. By
    // index: `due` reads the table in the same loop.
    fn one_round(&self, d: u32, work: &mut [u32]) -> bool
        requires entries { (M.meaning self.now.map.now).size ≤ length work.old }
        requires small { d ≤ 4096 }
        requires round { Round (structure M.L.Look.sign (M.meaning self.now.map.now)) (by_sheet self.now.sheet.now self.now.a) (by_sheet self.now.sheet.now self.now.b) d work.old }
        ensures { Swept (structure M.L.Look.sign (M.meaning self.now.map.now)) (by_sheet self.now.sheet.now self.now.a) (by_sheet self.now.sheet.now self.now.b) d (M.meaning self.now.map.now).size work.old work.new result }
    {
        // a copy, which the loop need not read again after each write
        let Until { map, sheet, a, b } = *self;
        let until = Until { map, sheet, a, b };
        let words = (map.size() as usize).min(sheet.len()) as u32;
        let mut found = false;
        for s in 0..words {
            if until.due(s, work, d) {
                work[s as usize] = d + 1;
                found = true;
            }
        }
        found
    }

    // Fills the first entries with each state's shortest length, NONE where it has no run, and answers the greatest length.
    pub fn lengths(&self, work: &mut [u32]) -> u32
        requires { (M.meaning self.now.map.now).size ≤ length work.old }
        ensures filled { Filled (structure M.L.Look.sign (M.meaning self.now.map.now)) (by_sheet self.now.sheet.now self.now.a) (by_sheet self.now.sheet.now self.now.b) work.old work.new }
        ensures greatest { Greatest (structure M.L.Look.sign (M.meaning self.now.map.now)) (by_sheet self.now.sheet.now self.now.a) (by_sheet self.now.sheet.now self.now.b) result }
        ensures below { 0 < (M.meaning self.now.map.now).size → result < (M.meaning self.now.map.now).size }
    {
        self.first_round(work);
        // counted by hand: the number of rounds that gave a length is the answer
        let mut d = 0;
        while self.one_round(d, work) {
            d += 1;
        }
        d
    }
}
