// A case: its kind and what it is run on, parted by blanks.
use crate::coded::{decode, take_word};
use crate::maps::{run_map, run_save};
use crate::rows::run_rules;
use crate::said::{put_coded, say};
use checking::check::check;
use std::alloc::Global;

// `check MAP RULES`: what the checker writes.
fn run_check(heap: Global, out: &mut Vec<u8>, rest: &str) {
    let (map, rules) = take_word(rest);
    let mut bytes = [0; 1024];
    let written = check(
        decode(heap, map).as_slice(),
        decode(heap, rules).as_slice(),
        &mut bytes,
    );
    put_coded(out, &bytes[..written.unwrap_or(0)]);
}

// Appends the line of what a case gives.
fn run_case(heap: Global, out: &mut Vec<u8>, line: &str) {
    let (kind, rest) = take_word(line);
    // what finds no memory is left out
    let _ = match kind {
        "check" => {
            run_check(heap, out, rest);
            Ok(())
        }
        "map" => run_map(heap, out, rest),
        "rules" => run_rules(heap, out, rest),
        "save" => run_save(heap, out, rest),
        _ => {
            say(out, "no such case");
            Ok(())
        }
    };
    say(out, "\n");
}

// What the cases give, a line for each.
pub(crate) fn run_cases(heap: Global, cases: &str) -> Vec<u8> {
    let mut out = Vec::new(heap);
    for line in cases.lines() {
        run_case(heap, &mut out, line);
    }
    out
}
