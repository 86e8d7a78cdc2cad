// The kinds of rows, and the row that follows a kind's word.
ghost use Rattle.std.specs.Prelude.{◌≡◌};
ghost use Rattle.text.specs.Lines.{fields, kind_of, row_in};

use crate::field::{read_one, read_two};
use crate::line::LineFault;
use crate::number::MAX_SIGN;
use crate::split::split_first;
use stl::row::Row;

// One kind for each word.
#[derive(Clone, Copy)]
pub enum Kind {
    True,
    Sign,
    Not,
    Or,
    Next,
    Until,
}

// The kind that a word names.
fn read_kind(word: &[u8]) -> Option<Kind>
    ensures { result ≡ kind_of word.now }
{
    match word {
        b"true" => Some(Kind::True),
        b"sign" => Some(Kind::Sign),
        b"not" => Some(Kind::Not),
        b"or" => Some(Kind::Or),
        b"next" => Some(Kind::Next),
        b"until" => Some(Kind::Until),
        _ => None,
    }
}

// The row that the fields after the letter are.
#[tactic(auto, using(crate::proofs::Parting::parts_first))]
pub(crate) fn read_row(rest: &[u8]) -> Result<Row, LineFault>
    ensures { result ≡ row_in (fields rest.now) }
{
    let (word, operands) = split_first(rest, 9);
    let kind = read_kind(word).ok_or(LineFault::NotOfAForm)?;
    match (kind, operands) {
        (Kind::True, None) => Ok(Row::True),
        (Kind::Sign, Some(rest)) => read_one(rest, 3, MAX_SIGN).map(|k| Row::Sign(k as u16)),
        (Kind::Not, Some(rest)) => read_one(rest, 3, u32::MAX).map(Row::Not),
        (Kind::Next, Some(rest)) => read_one(rest, 3, u32::MAX).map(Row::Next),
        (Kind::Or, Some(rest)) => {
            read_two(rest, 3, u32::MAX, u32::MAX).map(|(a, b)| Row::Or(a, b))
        }
        (Kind::Until, Some(rest)) => {
            read_two(rest, 3, u32::MAX, u32::MAX).map(|(a, b)| Row::Until(a, b))
        }
        (Kind::True, Some(_)) | (_, None) => Err(LineFault::NotOfAForm),
    }
}
