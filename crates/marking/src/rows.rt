// The labels of one row, by the labels of the rows that it names.
ghost use Rattle.std.specs.Prelude.{◌≡◌, ℕ, ◌<◌, ◌≤◌, true, length, Decides};
ghost use Rattle.lengths.specs.Sheets.{by_sheet, Labelled};
ghost use Rattle.map.specs.Meaning.{structure};
ghost use Rattle.marking.specs.Timed.{Timed};
ghost use Rattle.stl.specs.Rows.{Satisfied, named, Reach};
ghost use Rattle.stl.specs.Structures.{Move};

use lengths::labels::with_bit;
use lengths::rounds::{NONE, Until};
use look::Look;
use look::word::is_on;
use map::Map;
use map::read::{first_target, sign_at};
use stl::row::Row;

// Whether a move from s leads to a state with the label of row a.
fn some_move<M: Map>(map: &M, sheet: &[u64], a: u32, s: u32) -> bool
    requires words { (M.meaning map.now).size ≤ length sheet.now }
    ensures { Decides result ((t : ℕ) × Move (structure M.L.Look.sign (M.meaning map.now)) s t × by_sheet sheet.now a t) }
{
    first_target(map, s, |t| is_on(sheet[t as usize], a)).is_some()
}

// Whether the row is satisfied at s. An until is read off the table of its lengths.
fn satisfied<M: Map>(map: &M, sheet: &[u64], work: &[u32], row: Row, s: u32) -> bool
    requires state { s < (M.meaning map.now).size }
    requires words { (M.meaning map.now).size ≤ length sheet.now }
    requires entries { (M.meaning map.now).size ≤ length work.now }
    requires timed { Timed (structure M.L.Look.sign (M.meaning map.now)) sheet.now work.now row }
    ensures { Decides result (Satisfied (structure M.L.Look.sign (M.meaning map.now)) (by_sheet sheet.now) row s) }
{
    match row {
        Row::True => true,
        Row::Sign(n) => sign_at(map, s, n),
        Row::Not(a) => !is_on(sheet[s as usize], a),
        Row::Or(a, b) => is_on(sheet[s as usize], a) || is_on(sheet[s as usize], b),
        Row::Next(a) => some_move(map, sheet, a, s),
        Row::Until(_, _) => work[s as usize] != NONE,
    }
}

// Writes bit r of each word: whether the row is satisfied at its state. By index: the sheet is read in the same loop.
fn write_row<M: Map>(map: &M, sheet: &mut [u64], r: u32, row: Row, work: &[u32])
    requires bit { r < 64 }
    requires words { (M.meaning map.now).size ≤ length sheet.old }
    requires entries { (M.meaning map.now).size ≤ length work.now }
    requires earlier { named row r ≡ true }
    requires timed { Timed (structure M.L.Look.sign (M.meaning map.now)) sheet.old work.now row }
    ensures { Labelled (structure M.L.Look.sign (M.meaning map.now)) sheet.old r row (M.meaning map.now).size sheet.new }
{
    for s in 0..map.size() {
        let b = satisfied(map, sheet, work, row, s);
        sheet[s as usize] = with_bit(sheet[s as usize], r, b);
    }
}

// Gives row r its labels, and answers its reach. The lengths of an until stand in a table of its own.
pub fn mark_row<M: Map>(map: &M, sheet: &mut [u64], r: u32, row: Row) -> u32
    requires bit { r < 64 }
    requires words { (M.meaning map.now).size ≤ length sheet.old }
    requires earlier { named row r ≡ true }
    ensures labels { Labelled (structure M.L.Look.sign (M.meaning map.now)) sheet.old r row (M.meaning map.now).size sheet.new }
    ensures reach { Reach (structure M.L.Look.sign (M.meaning map.now)) (by_sheet sheet.old) row result }
{
    let mut work = [NONE; 4096];
    let reach = match row {
        Row::Until(a, b) => Until { map, sheet, a, b }.lengths(&mut work),
        _ => 0,
    };
    write_row(map, sheet, r, row, &work);
    reach
}
