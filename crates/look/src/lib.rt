// What a state shows: signs, numbered from 0, that are on or off, and when two looks of one kind are the same.
#![tactic(auto)]

ghost use Rattle.std.specs.Prelude.{◌≡◌, ℕ, Bool, true};

pub mod joint;
pub mod level;
pub mod switch;
pub mod word;

// A kind of look. Sameness is an equivalence, and looks that are the same agree on every sign.
pub trait Look: Copy {
    // whether sign k is on
    ghost sign: { Self → ℕ → Bool };

    // whether two looks are the same
    ghost same: { Self → Self → Bool };

    // Whether sign k is on; a sign that the kind does not name is off.
    fn shows(&self, k: u16) -> bool
        ensures { result ≡ sign self.now k };

    // Whether the two looks are the same.
    fn same_as(&self, other: &Self) -> bool
        ensures { result ≡ same self.now other.now };

    ghost reflexive: { (a : Self) → same a a ≡ true };

    ghost symmetric: { (a b : Self) → same a b ≡ true → same b a ≡ true };

    ghost transitive: { (a b c : Self) → same a b ≡ true → same b c ≡ true → same a c ≡ true };

    ghost agree: { (a b : Self) → same a b ≡ true → (k : ℕ) → sign a k ≡ sign b k };
}
