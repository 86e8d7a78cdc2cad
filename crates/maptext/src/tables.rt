// The tables that a map text is read into.
use look::switch::SwitchLook;

// The looks, start bytes, firsts and targets of a map, lent by the caller.
#[derive(Drop)]
pub struct MapTables<'a> {
    pub looks: &'a mut [SwitchLook],
    pub starts: &'a mut [u8],
    pub firsts: &'a mut [u32],
    pub targets: &'a mut [u32],
}
