// Calls of a session and their answers.
use crate::fault::SessionFault;
use stl::row::Row;

// What a session can be asked.
#[derive(Clone, Copy, PartialEq, Eq, Debug)]
pub enum Call {
    // one row more
    Add(Row),
    // the labels of the next row
    Mark,
    // the label of state s for row r
    Label(u32, u32),
    // whether every start has the label of row r
    Verdict(u32),
    // a shortest run from state s for the until row r
    Witness(u32, u32),
}

// What it answers.
#[derive(Clone, Copy, PartialEq, Eq, Debug)]
pub enum Answer {
    // the number of the new row
    Added(u32),
    // the row that was marked, and its reach
    Marked(u32, u32),
    Label(bool),
    Verdict(bool),
    // the length of the run that was written
    Witness(u32),
    Refused(SessionFault),
}
