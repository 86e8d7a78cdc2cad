// Rows of a rule list.

// One row; a and b are the numbers of other rows.
#[derive(Clone, Copy, PartialEq, Eq, Debug)]
pub enum Row {
    // holds everywhere
    True,
    // the sign is on
    Sign(u16),
    // a does not hold
    Not(u32),
    // a or b holds
    Or(u32, u32),
    // a move leads to a state where a holds
    Next(u32),
    // a run ends where b holds, and a or b holds all along it
    Until(u32, u32),
}
