// The rule list.
ghost use Rattle.std.specs.Prelude.{◌≡◌, ◌≤◌, true, [], length, take};
ghost use Rattle.map.specs.Questions.{first_no};
ghost use Rattle.rules.specs.Lists.{questions, answer, added};
ghost use Rattle.std.specs.List.{slice_get};
ghost use Rattle.stl.specs.Rows.{named, ordered};

use crate::fault::RuleFault;
use stl::row::Row;

// The first `len` of the rows are the list. It is an array with a count, since a session takes no heap and a list is copied whole.
#[derive(Clone, Copy)]
pub struct RuleList {
    rows: [Row; 64],
    len: u32,
    ghost long: { length rows ≡ 64 },
    ghost few: { len ≤ 64 },
    // no row names itself or a later row
    ghost earlier: { ordered 0 (take len rows) ≡ true },
}

// Whether each row that `row` names is below n.
fn names_below(row: Row, n: u32) -> bool
    ensures { result ≡ named row n }
{
    match row {
        Row::True | Row::Sign(_) => true,
        Row::Not(a) | Row::Next(a) => a < n,
        Row::Or(a, b) | Row::Until(a, b) => a < n && b < n,
    }
}

impl RuleList {
    // The list without rows.
    pub fn new() -> RuleList
        ensures { take result.len result.rows ≡ [] }
    {
        RuleList {
            rows: [Row::True; 64],
            len: 0,
        }
    }

    // How many rows there are.
    pub fn len(&self) -> u32
        ensures { result ≡ length (take self.now.len self.now.rows) }
    {
        self.len
    }

    // Row r.
    pub fn row(&self, r: u32) -> Option<Row>
        ensures { result ≡ slice_get (take self.now.len self.now.rows) r }
    {
        let rows = &self.rows[..self.len as usize];
        rows.get(r as usize).copied()
    }

    // One row more, or a refusal that leaves the list as it was.
    pub fn add(&mut self, row: Row) -> Result<u32, RuleFault>
        ensures answer { result ≡ answer self.old.len (first_no (questions self.old.len row)) }
        ensures rows { take self.new.len self.new.rows ≡ added (take self.old.len self.old.rows) row (first_no (questions self.old.len row)) }
    {
        let n = self.len;
        if n >= 64 {
            return Err(RuleFault::TooManyRows);
        }
        if !names_below(row, n) {
            return Err(RuleFault::NamesLaterRow);
        }
        let mut rows = self.rows;
        rows[n as usize] = row;
        *self = RuleList { rows, len: n + 1 };
        Ok(n)
    }
}
