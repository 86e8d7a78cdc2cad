// Numbers: plain base ten, without leading zeros.
ghost use Rattle.std.specs.Prelude.{◌≡◌, ◌+◌, ◌-◌, ◌*◌, ◌^◌, ◌<◌, ◌≤◌, cond, ◌&&◌, Some, None, nat_lt, IfSome};
ghost use Rattle.text.specs.Numbers.{digit, number_of, number_below, NumberLaws};

// The largest sign.
pub(crate) const MAX_SIGN: u32 = 65_535;

// The largest start.
pub(crate) const MAX_START: u32 = 1;

// The number with one more digit written after it, if that is a number.
fn with_digit(value: u32, b: u8) -> Option<u32>
    ensures { result ≡ cond (digit b && nat_lt (value * 10 + (b - 48)) (2 ^ 32)) (Some (value * 10 + (b - 48))) None }
{
    if !b.is_ascii_digit() {
        return None;
    }
    value.checked_mul(10)?.checked_add(u32::from(b - b'0'))
}

// The number that a field is, if it is one.
pub fn read_number(field: &[u8]) -> Option<u32>
    ensures { result ≡ number_of field.now }
{
    if let [] | [b'0', _, ..] = field {
        return None;
    }
    let mut value = 0;
    for b in field {
        value = with_digit(value, *b)?;
    }
    Some(value)
}

// The number that a field is, if it is one and no more than the largest.
pub(crate) fn read_up_to(field: &[u8], max: u32) -> Option<u32>
    ensures read { result ≡ number_below (max + 1) field.now }
    ensures within { IfSome result (λ n. n ≤ max) }
{
    read_number(field).filter(|n| *n <= max)
}

// The numeral of a number reads back as it, and a number has no other numeral.
pub fn numbers_keep_their_laws()
    ensures { NumberLaws }
{}
