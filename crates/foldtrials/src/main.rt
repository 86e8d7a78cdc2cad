// Reads folds from standard input, one to a line, and writes what the check says of each. The cases, and what they should give, are
// written by model.py, which shares no code with the checker.
#![tactic(auto)]

mod folds;
mod parse;

use folds::run_case;
use std::io;

fn main(rt: HostRuntime) -> io::Result<()> {
    let heap = rt.alloc();
    for line in rt.lines(heap) {
        println!(rt; "{}", run_case(heap, &line?)?)?;
    }
    Ok(())
}
