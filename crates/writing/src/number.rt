// Numerals put into a sink.
ghost use Rattle.std.specs.Prelude.{◌≡◌, ◌≤◌, length, drop, OnErr, ⊤};
ghost use Rattle.text.specs.Numbers.{written};
ghost use Rattle.writing.specs.Sinks.{Put};

use crate::fault::SaveFault;
use crate::save::Text;
use crate::sink::Sink;

// Writes the numeral of n at the end of the digits: where it begins. It stays beside `write!`, which does not promise when it fails.
fn fill_digits(digits: &mut [u8; 10], n: u32) -> usize
    ensures within { result ≤ 10 }
    ensures filled { drop result digits.new ≡ written n }
{
    let mut first = 9;
    digits[first] = (n % 10) as u8 + b'0';
    let mut rest = n / 10;
    while rest > 0 {
        first -= 1;
        digits[first] = (rest % 10) as u8 + b'0';
        rest /= 10;
    }
    first
}

// Puts the numeral of n, or nothing where there is no room for it.
pub fn put_number<S: Sink>(sink: &mut S, n: u32) -> Result<(), SaveFault>
    ensures put { Put S.room S.puts S.keeps sink.old (written n) result sink.new }
    ensures refused { OnErr result (sink.new ≡ sink.old) }
{
    let mut digits = [0; 10];
    let first = fill_digits(&mut digits, n);
    sink.put(&digits[first..])
}

// A number, put as its numeral.
impl Text for u32 {
    ghost text = { λ n. written n };

    ghost shown = { λ n. ⊤ };

    fn put_into<S: Sink>(&self, sink: &mut S) -> Result<(), SaveFault> {
        put_number(sink, *self)
    }
}
