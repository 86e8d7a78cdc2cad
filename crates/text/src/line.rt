// Lines of a text.
ghost use Rattle.std.specs.Prelude.{◌≡◌};
ghost use Rattle.text.specs.Faults.{refusal};
ghost use Rattle.text.specs.Lines.{fields, line_of, map_line, state_line, target_line, rule_line};
ghost use Rattle.text.specs.Written.{LineLaws};

use crate::field::{read_one, read_two};
use crate::kind::read_row;
use crate::number::MAX_START;
use map::refusal::Refusal;
use stl::row::Row;
use thiserror::Error;

// What a line says.
#[derive(Clone, Copy)]
pub enum Line {
    // the size of the map
    Map(u32),
    // the look of a state, and 1 where it is a start: a byte, as the tables have it
    State(u32, u8),
    // a target of the state before it
    Target(u32),
    // a row of a rule list
    Rule(Row),
}

// What is wrong with a line that says nothing.
#[derive(Clone, Copy, PartialEq, Eq, Debug, Error)]
pub enum LineFault {
    #[error("the letter, the number of fields or the kind word is wrong")]
    NotOfAForm,
    // this field; the letter is field 1
    #[error("a field is no number, or past its bound")]
    BadNumber(u32),
}

impl Refusal for LineFault {
    ghost told = { λ f. refusal f };

    fn number(self) -> u8 {
        match self {
            LineFault::NotOfAForm => 11,
            LineFault::BadNumber(_) => 12,
        }
    }

    fn carried(self) -> Option<u32> {
        match self {
            LineFault::NotOfAForm => None,
            LineFault::BadNumber(field) => Some(field),
        }
    }
}

// The look and the start of a state.
fn read_state(rest: &[u8]) -> Result<Line, LineFault>
    ensures { result ≡ state_line (fields rest.now) }
{
    read_two(rest, 2, u32::MAX, MAX_START).map(|(look, start)| Line::State(look, start as u8))
}

// A row.
fn read_rule(rest: &[u8]) -> Result<Line, LineFault>
    ensures { result ≡ rule_line (fields rest.now) }
{
    read_row(rest).map(Line::Rule)
}

// What a line says, or what is wrong with it; its byte 10 is left out.
pub fn read_line(line: &[u8]) -> Result<Line, LineFault>
    ensures { result ≡ line_of line.now }
{
    match line {
        [b'M', 9, rest @ ..] => Ok(Line::Map(read_one(rest, 2, u32::MAX)?)),
        [b'S', 9, rest @ ..] => read_state(rest),
        [b'T', 9, rest @ ..] => Ok(Line::Target(read_one(rest, 2, u32::MAX)?)),
        [b'R', 9, rest @ ..] => read_rule(rest),
        _ => Err(LineFault::NotOfAForm),
    }
}

// A line has one text, and that text reads back as the line.
pub fn lines_keep_their_laws()
    ensures { LineLaws }
{}
