// What is found of a marked row.

// Whether every start has the label of the row, and the row's reach.
#[derive(Clone, Copy)]
pub struct Found {
    pub yes: bool,
    pub reach: u32,
}
