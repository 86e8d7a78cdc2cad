// What a case gives, in words. What finds no memory is left out, and the line is then not the one that should be.
use reader::fault::TextFault;
use std::fmt::Display;
use std::io::Write;

// Appends a word: the whole of it, or nothing where it finds no memory.
pub(crate) fn say<D: Display + Drop>(out: &mut Vec<u8>, word: D) {
    let before = out.len();
    if write!(out, "{word}").is_err() {
        out.truncate(before);
    }
}

// Appends a text, with `|` for byte 9 and `/` for byte 10.
pub(crate) fn put_coded(out: &mut Vec<u8>, text: &[u8]) {
    for b in text {
        let sign = match *b {
            9 => b'|',
            10 => b'/',
            other => other,
        };
        let _ = out.push(sign);
    }
}

// Appends a fault: its number, line and field.
pub(crate) fn say_fault(out: &mut Vec<u8>, fault: TextFault) {
    let TextFault { what, line } = fault;
    say(out, "fault");
    for n in [u32::from(what.number()), line, what.field()] {
        say(out, format_args!(" {n}"));
    }
}
