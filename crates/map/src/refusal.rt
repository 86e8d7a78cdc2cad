// What every refusal tells.
ghost use Rattle.std.specs.Prelude.{◌≡◌};
ghost use Rattle.map.specs.Questions.{Refusal as Told};

use std::error::Error;

// A kind of refusal: each says what is wrong, has a number, and may carry the place at fault, or a length.
pub trait Refusal: Copy + Error {
    // what it tells
    ghost told: { Self → Told };

    // The number by which the refusal is known.
    fn number(self) -> u8
        ensures { result ≡ (told self).number };

    // The place at fault, or the length, where the refusal carries one.
    fn carried(self) -> Option<u32>
        ensures { result ≡ (told self).carried };
}
