// Texts in a case: `|` stands for byte 9, `/` for byte 10, `~` and two hexadecimal digits for any byte. Segments parted by commas
// stand one after the other; `N*` before a segment repeats it N times.
use std::alloc::{AllocError, Global};

// The value of a hexadecimal digit, 0 where it is none.
fn hex(b: u8) -> u8 {
    match b {
        b'0'..=b'9' => b - b'0',
        b'a'..=b'f' => b - b'a' + 10,
        _ => 0,
    }
}

// The byte that a sign stands for.
fn plain(b: u8) -> u8 {
    match b {
        b'|' => 9,
        b'/' => 10,
        _ => b,
    }
}

// Appends the bytes that a segment stands for.
fn put_segment(out: &mut Vec<u8>, segment: &[u8]) -> Result<(), AllocError> {
    let mut rest = segment;
    loop {
        match rest {
            [] => return Ok(()),
            [b'~', high, low, more @ ..] => {
                out.push(hex(*high).wrapping_mul(16) | hex(*low))?;
                rest = more;
            }
            [b, more @ ..] => {
                out.push(plain(*b))?;
                rest = more;
            }
        }
    }
}

// The number that a word is, 0 where it is none.
fn number(word: &str) -> u32 {
    word.parse::<u32>().unwrap_or(0)
}

// The word before the first blank, and what comes after it.
pub(crate) fn take_word(rest: &str) -> (&str, &str) {
    rest.split_once(' ').unwrap_or((rest, ""))
}

// The number before the first blank, and what comes after it.
pub(crate) fn take_number(rest: &str) -> (usize, &str) {
    let (word, more) = take_word(rest);
    (number(word) as usize, more)
}

// Appends what a segment stands for, as often as it says.
fn put_segments(out: &mut Vec<u8>, segment: &str) -> Result<(), AllocError> {
    let (count, body) = segment.split_once('*').unwrap_or(("1", segment));
    for _ in 0..number(count) {
        put_segment(out, body.as_bytes())?;
    }
    Ok(())
}

// The text that a word stands for, as far as there is memory for it.
pub(crate) fn decode(heap: Global, word: &str) -> Vec<u8> {
    let mut out = Vec::new(heap);
    for segment in word.split(',') {
        // what finds no memory is left out
        let _ = put_segments(&mut out, segment);
    }
    out
}
