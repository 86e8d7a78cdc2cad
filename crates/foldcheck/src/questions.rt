// The questions that are asked of each state.
ghost use Rattle.std.specs.Prelude.{◌≡◌, ℕ, ◌<◌, true, length, Some, None, Decides, MatchOption, MatchResult};
ghost use Rattle.std.specs.Result.{result_err};
ghost use Rattle.foldcheck.specs.Questions.{MovesInto};
ghost use Rattle.foldcheck.specs.Verdicts.{Decided};
ghost use Rattle.map.specs.Meaning.{structure};
ghost use Rattle.map.specs.Searches.{LowestNo};
ghost use Rattle.sharing.specs.Accepts.{class_of, HasClass, LooksAlike, MovesForth, MovesBack, StartsForth, StartsBack, IsClass};

use crate::fault::FoldFault;
use look::Look;
use map::Map;
use map::read::{first_target, lowest_no, moves_to};

// Asks at each number below n, and refuses at the lowest that has a no.
fn ask_all<Q: Fn(u32) -> bool, E, F: FnOnce(u32) -> E>(n: u32, ask: Q, fault: F) -> Result<(), E>
    requires asks { (s : ℕ) → s < n → Q.pre ask s }
    requires faults { F.IsAlwaysCallable fault }
    ensures { MatchResult result (λ _. LowestNo (Q.post ask) n None) (λ e. (s : ℕ) × LowestNo (Q.post ask) n (Some s) × F.post fault s e) }
{
    match lowest_no(n, ask) {
        Some(s) => Err(fault(s)),
        None => Ok(()),
    }
}

// A full map, a folded map, and the class of each full state.
#[derive(Drop)]
pub(crate) struct Folding<'a, F: Map, G: Map<L = F::L>> {
    full: &'a F,
    folded: &'a G,
    classes: &'a [u32],
    ghost sized: { length classes.now ≡ (F.Map.meaning full.now).size },
}

impl<'a, F: Map, G: Map<L = F::L>> Folding<'a, F, G> {
    // Takes the table where it has an entry for each full state, and no other.
    pub(crate) fn new(full: &'a F, folded: &'a G, classes: &'a [u32]) -> Option<Self>
        ensures { MatchOption result (length classes.now ≡ (F.Map.meaning full.now).size → ⊥) (λ f. (f.full.now ≡ full.now) × (f.folded.now ≡ folded.now) × (f.classes.now ≡ classes.now)) }
    {
        if classes.len() == full.size() as usize {
            Some(Folding {
                full,
                folded,
                classes,
            })
        } else {
            None
        }
    }

    // Whether the class of s is a folded state. A state is an index of the table, and a type for such indices would be no plainer, so
    // each question of a full state asks for the bound.
    fn has_class(&self, s: u32) -> bool
        requires { s < length self.now.classes.now }
        ensures { Decides result (HasClass F.L.Look.sign F.L.Look.same (F.Map.meaning self.now.full.now) (G.Map.meaning self.now.folded.now) self.now.classes.now s) }
    {
        self.classes[s as usize] < self.folded.size()
    }

    // Whether s looks like its class.
    fn looks_alike(&self, s: u32) -> bool
        requires { s < length self.now.classes.now }
        ensures { Decides result (LooksAlike F.L.Look.sign F.L.Look.same (F.Map.meaning self.now.full.now) (G.Map.meaning self.now.folded.now) self.now.classes.now s) }
    {
        let class = self.classes[s as usize];
        match (self.full.look_of(s), self.folded.look_of(class)) {
            (Some(a), Some(b)) => a.same_as(&b),
            _ => false,
        }
    }

    // Whether every move from s has a move between the classes.
    fn moves_forth(&self, s: u32) -> bool
        requires { s < length self.now.classes.now }
        ensures { Decides result (MovesForth F.L.Look.sign F.L.Look.same (F.Map.meaning self.now.full.now) (G.Map.meaning self.now.folded.now) self.now.classes.now s) }
    {
        let class = self.classes[s as usize];
        let lost = |t: u32| !moves_to(self.folded, class, self.classes[t as usize]);
        first_target(self.full, s, lost).is_none()
    }

    // Whether s moves to a state of class d.
    fn moves_into(&self, s: u32, d: u32) -> bool
        ensures { Decides result (MovesInto F.L.Look.sign (F.Map.meaning self.now.full.now) self.now.classes.now s d) }
    {
        first_target(self.full, s, |t| self.classes[t as usize] == d).is_some()
    }

    // Whether s moves wherever its class moves.
    fn moves_back(&self, s: u32) -> bool
        requires { s < length self.now.classes.now }
        ensures { Decides result (MovesBack F.L.Look.sign F.L.Look.same (F.Map.meaning self.now.full.now) (G.Map.meaning self.now.folded.now) self.now.classes.now s) }
    {
        let class = self.classes[s as usize];
        first_target(self.folded, class, |d| !self.moves_into(s, d)).is_none()
    }

    // Whether the class of s is a start if s is one.
    fn starts_forth(&self, s: u32) -> bool
        requires { s < length self.now.classes.now }
        ensures { Decides result (StartsForth F.L.Look.sign F.L.Look.same (F.Map.meaning self.now.full.now) (G.Map.meaning self.now.folded.now) self.now.classes.now s) }
    {
        !self.full.is_start(s) || self.folded.is_start(self.classes[s as usize])
    }

    // Whether a start has class d.
    fn has_start(&self, d: u32) -> bool
        ensures { Decides result ((s : ℕ) × (s < (F.Map.meaning self.now.full.now).size) × ((F.Map.meaning self.now.full.now).start s ≡ true) × (class_of self.now.classes.now s ≡ d)) }
    {
        (0..self.full.size()).any(|s| self.full.is_start(s) && self.classes[s as usize] == d)
    }

    // Whether d is the class of a start if it is a start.
    fn starts_back(&self, d: u32) -> bool
        ensures { Decides result (StartsBack F.L.Look.sign F.L.Look.same (F.Map.meaning self.now.full.now) (G.Map.meaning self.now.folded.now) self.now.classes.now d) }
    {
        !self.folded.is_start(d) || self.has_start(d)
    }

    // Whether d is the class of a state.
    fn is_class(&self, d: u32) -> bool
        ensures { Decides result (IsClass F.L.Look.sign F.L.Look.same (F.Map.meaning self.now.full.now) (G.Map.meaning self.now.folded.now) self.now.classes.now d) }
    {
        self.classes.contains(&d)
    }

    // Asks each question of all states before the next; the first no decides.
    pub(crate) fn ask(&self) -> Result<(), FoldFault>
        ensures { Decided F.L.Look.sign F.L.Look.same (F.Map.meaning self.now.full.now) (G.Map.meaning self.now.folded.now) self.now.classes.now (result_err result) }
    {
        let states = self.full.size();
        let classes = self.folded.size();
        ask_all(states, |s| self.has_class(s), FoldFault::NoClass)?;
        ask_all(states, |s| self.looks_alike(s), FoldFault::OtherLook)?;
        ask_all(states, |s| self.moves_forth(s), FoldFault::MoveLost)?;
        ask_all(states, |s| self.moves_back(s), FoldFault::MoveAdded)?;
        ask_all(states, |s| self.starts_forth(s), FoldFault::StartLost)?;
        ask_all(classes, |d| self.starts_back(d), FoldFault::StartAdded)?;
        ask_all(classes, |d| self.is_class(d), FoldFault::NotAClass)?;
        Ok(())
    }
}
