// Reads map.txt and rules.txt in the folder that it is run in, and writes the report of all rows, or the line of a fault.
#![tactic(auto)]

use checking::check::check;
use std::fs;
use std::io::Write;

// What a file holds; one that cannot be read is empty.
fn bytes_of(rt: &HostRuntime, path: &str) -> Vec<u8> {
    fs::read(rt, path).unwrap_or_else(|_| Vec::new(rt.alloc()))
}

fn main(rt: HostRuntime) {
    let map = bytes_of(&rt, "map.txt");
    let rules = bytes_of(&rt, "rules.txt");
    let mut out = [0; 1024];
    if let Ok(n) = check(map.as_slice(), rules.as_slice(), &mut out) {
        // whatever comes of it: the program always ends with status 0
        let _ = rt.stdout().write_all(&out[0..n]);
    }
}
