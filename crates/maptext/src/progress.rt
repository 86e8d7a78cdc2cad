// How far a map text has been read.
use reader::place::Place;

#[derive(Clone, Copy)]
pub struct Progress {
    pub place: Place,
    // the size that the M line said
    pub size: u32,
    // how many S lines there were
    pub states: u32,
    // how many T lines there were
    pub moves: u32,
}

// How many states and moves a text wrote into the tables.
#[derive(Clone, Copy)]
pub struct MapSize {
    pub states: u32,
    pub moves: u32,
}
