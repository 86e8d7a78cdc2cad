// Maps that are made from what a caller gives.
ghost use Rattle.std.specs.Prelude.{◌≡◌, Option};

use crate::refusal::Refusal;

// A kind of map that is always made, whatever it is made of, and tells why it was refused, if it was.
pub trait Made {
    type Fault: Refusal;

    // why it was refused, if it was
    ghost why: { Self → Option Self.Fault };

    // Why it was refused, if it was.
    fn fault(&self) -> Option<Self::Fault>
        ensures { result ≡ why self.now };
}
