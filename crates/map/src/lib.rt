// Maps by what they answer: the five questions, the meaning that they ask after, and readers for every kind of map.
#![tactic(auto)]

ghost use Rattle.std.specs.Prelude.{◌≡◌, length};
ghost use Rattle.map.specs.Counts.{CountLaws};
ghost use Rattle.map.specs.Meaning.{Meaning, Bounded};
ghost use Rattle.std.specs.List.{slice_get};

use look::Look;

pub mod made;
pub mod read;
pub mod refusal;

// A kind of map. Asked for a state or an entry that it does not have, it answers that there is none.
pub trait Map {
    type L: Look;

    // what the map means
    ghost meaning: { Self → Meaning Self.L };

    // each kind shows the bounds that all maps keep to
    ghost bounded: { (m : Self) → Bounded (meaning m) };

    // How many states there are.
    fn size(&self) -> u32
        ensures { result ≡ (meaning self.now).size };

    // Whether s is a start.
    fn is_start(&self, s: u32) -> bool
        ensures { result ≡ (meaning self.now).start s };

    // The look of s.
    fn look_of(&self, s: u32) -> Option<Self::L>
        ensures { result ≡ (meaning self.now).look s };

    // How many entries the list of s has.
    fn list_len(&self, s: u32) -> u32
        ensures { result ≡ length ((meaning self.now).list s) };

    // Entry k of the list of s.
    fn entry(&self, s: u32, k: u32) -> Option<u32>
        ensures { result ≡ slice_get ((meaning self.now).list s) k };
}

// The lowest no and the greatest value, by which promises speak, are what their names say.
pub fn counts_keep_their_laws()
    ensures { CountLaws }
{}
