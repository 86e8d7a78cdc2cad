// Labels: one bit of a word.
ghost use Rattle.std.specs.Prelude.{◌≡◌, ℕ, ◌<◌, if◌then◌else◌, nat_eq};
ghost use Rattle.look.specs.Bits.{bit_on};
ghost use Rattle.lengths.specs.Sheets.{label_of};

use look::word::is_on;

// The label of row r at s: bit r of word s. Where there is no such bit or no such word, it is off.
pub fn labelled(sheet: &[u64], r: u32, s: u32) -> bool
    ensures { result ≡ label_of sheet.now r s }
{
    sheet.get(s as usize).is_some_and(|word| is_on(*word, r))
}

// The word with bit r set to b, and each other bit as it was.
pub fn with_bit(word: u64, r: u32, b: bool) -> u64
    requires { r < 64 }
    ensures { (j : ℕ) → bit_on result j ≡ (if nat_eq j r then b else bit_on word j) }
{
    if is_on(word, r) == b {
        word
    } else {
        word ^ (1 << r)
    }
}
