// The lines of a text.
ghost use Rattle.reader.specs.Texts.{NextLine, TextLaws, text_lines};
ghost use Rattle.std.specs.Iterator.{YieldsFirst, item_count};
ghost use Rattle.std.specs.Option.{option_map};

use text::line::{Line, LineFault, read_line};
use text::lines::next_line;

// What the first line of a text says, and the bytes after the line; none at the end of the text. Bytes that no byte 10 ends
// are a line of no form.
pub fn take_line(text: &[u8]) -> Option<(Result<Line, LineFault>, &[u8])>
    ensures { NextLine text.now (option_map (λ x. (x.0, x.1.now)) result) }
{
    match next_line(text) {
        Some((line, rest)) => Some((read_line(line), rest)),
        None if text.is_empty() => None,
        None => Some((Err(LineFault::NotOfAForm), &[])),
    }
}

// The lines of a text, from the first on.
#[derive(Drop)]
pub struct Lines<'a>(pub &'a [u8]);

impl<'a> Iterator for Lines<'a> {
    type Item = Result<Line, LineFault>;

    ghost next_gives = { YieldsFirst (λ s. text_lines s.0.now) };

    ghost remaining = { item_count (λ s. text_lines s.0.now) };

    fn next(&mut self) -> Option<Result<Line, LineFault>> {
        let (said, rest) = take_line(self.0)?;
        self.0 = rest;
        Some(said)
    }
}

// Lines that are written out one after the other are the lines of that text.
pub fn texts_keep_their_laws()
    ensures { TextLaws }
{}
