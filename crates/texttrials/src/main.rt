// Reads cases from standard input, one to a line, and writes what each gives. The cases, and what they should give, are written
// by model.py from the rules of the formats; it shares nothing with the checker.
#![tactic(auto)]

mod cases;
mod coded;
mod maps;
mod rows;
mod said;

use cases::run_cases;
use std::io;
use std::io::Write;

fn main(rt: HostRuntime) -> io::Result<()> {
    let heap = rt.alloc();
    let cases = io::read_to_string(heap, rt.stdin())?;
    let said = run_cases(heap, cases.as_str());
    rt.stdout().write_all(said.as_slice())
}
