// The numbers in the fields of a line.
ghost use Rattle.std.specs.Prelude.{◌≡◌, ◌+◌, ◌^◌, ◌<◌, ◌≤◌, IfOk};
ghost use Rattle.text.specs.Lines.{fields, both, number_in, one_number, two_numbers};

use crate::line::LineFault;
use crate::number::read_up_to;
use crate::split::split_first;

// The number in a field, which has this place in its line.
fn read_field(field: &[u8], place: u32, max: u32) -> Result<u32, LineFault>
    ensures read { result ≡ number_in place (max + 1) field.now }
    ensures within { IfOk result (λ n. n ≤ max) }
{
    read_up_to(field, max).ok_or(LineFault::BadNumber(place))
}

// The numbers in two fields, the first of which has this place in its line.
fn read_both(
    first: &[u8],
    second: &[u8],
    place: u32,
    max: u32,
    next: u32,
) -> Result<(u32, u32), LineFault>
    requires { place < 4 }
    ensures read { result ≡ both (number_in place (max + 1) first.now) (number_in (place + 1) (next + 1) second.now) }
    ensures within { IfOk result (λ p. (p.0 ≤ max) × (p.1 ≤ next)) }
{
    let a = read_field(first, place, max)?;
    let b = read_field(second, place + 1, next)?;
    Ok((a, b))
}

// One number and no more.
#[tactic(auto, using(crate::proofs::Parting::parts_first))]
pub(crate) fn read_one(rest: &[u8], place: u32, max: u32) -> Result<u32, LineFault>
    ensures read { result ≡ one_number place (max + 1) (fields rest.now) }
    ensures within { IfOk result (λ n. n ≤ max) }
{
    let (field, None) = split_first(rest, 9) else {
        return Err(LineFault::NotOfAForm);
    };
    read_field(field, place, max)
}

// Two numbers and no more. It stays beside `read_one`: for any count, the fields would be kept in an array before they are read.
#[tactic(auto, using(crate::proofs::Parting::parts_first))]
pub(crate) fn read_two(
    rest: &[u8],
    place: u32,
    max: u32,
    next: u32,
) -> Result<(u32, u32), LineFault>
    requires { place < 4 }
    ensures read { result ≡ two_numbers place (max + 1) (next + 1) (fields rest.now) }
    ensures within { IfOk result (λ p. (p.0 ≤ max) × (p.1 ≤ next)) }
{
    if let (first, Some(more)) = split_first(rest, 9)
        && let (second, None) = split_first(more, 9)
    {
        return read_both(first, second, place, max, next);
    }
    Err(LineFault::NotOfAForm)
}
