// The bits of a word.
ghost use Rattle.std.specs.Prelude.{◌≡◌};
ghost use Rattle.look.specs.Bits.{bit_on};

// Whether bit j of the word is on; from bit 64 on it is off. By a mask, which a loop over words makes once.
pub fn is_on(word: u64, j: u32) -> bool
    ensures { result ≡ bit_on word j }
{
    word & 1u64.checked_shl(j).unwrap_or(0) != 0
}
