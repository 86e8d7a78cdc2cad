// The switches of a map: how many there are, which of them show, and where it starts.

// Each mask is a set of switches: switch j is in it where bit j is 1.
#[derive(Clone, Copy)]
pub struct Panel {
    // how many switches there are
    pub bits: u32,
    // the switches that show in a look
    pub visible: u32,
    // the switches that are on at a start
    pub start_on: u32,
    // the switches that are off at a start
    pub start_off: u32,
}
