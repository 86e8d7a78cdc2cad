// Readers that are proved once for every kind of map.
ghost use Rattle.std.specs.Prelude.{◌≡◌, ℕ, ◌<◌, true, false, Decides};
ghost use Rattle.map.specs.Counts.{longest};
ghost use Rattle.map.specs.Meaning.{structure};
ghost use Rattle.map.specs.Searches.{FirstPick, LowestNo};
ghost use Rattle.stl.specs.Structures.{Move, WellFormed};

use crate::Map;
use look::Look;

// Whether sign k is on at s; at a state that is not there it is off.
pub fn sign_at<M: Map>(map: &M, s: u32, k: u16) -> bool
    ensures { result ≡ (structure M.L.Look.sign (M.meaning map.now)).on s k }
{
    match map.look_of(s) {
        Some(look) => look.shows(k),
        None => false,
    }
}

// The first target of s that the test picks.
pub fn first_target<M: Map, P: Fn(u32) -> bool>(map: &M, s: u32, picks: P) -> Option<u32>
    requires { (t : ℕ) → Move (structure M.L.Look.sign (M.meaning map.now)) s t → P.pre picks t }
    ensures { FirstPick ((M.meaning map.now).list s) (P.post picks) result }
{
    for k in 0..map.list_len(s) {
        if let Some(t) = map.entry(s, k) {
            if picks(t) {
                return Some(t);
            }
        }
    }
    None
}

// Whether there is a move from s to t.
pub fn moves_to<M: Map>(map: &M, s: u32, t: u32) -> bool
    ensures { Decides result (Move (structure M.L.Look.sign (M.meaning map.now)) s t) }
{
    first_target(map, s, |target| target == t).is_some()
}

// The lowest number below n at which the answer is no.
pub fn lowest_no<P: Fn(u32) -> bool>(n: u32, answer: P) -> Option<u32>
    requires { (i : ℕ) → i < n → P.pre answer i }
    ensures { LowestNo (P.post answer) n result }
{
    for i in 0..n {
        if !answer(i) {
            return Some(i);
        }
    }
    None
}

// The length of the longest list.
pub fn longest_list<M: Map>(map: &M) -> u32
    ensures { result ≡ longest (M.meaning map.now) }
{
    let mut most: u32 = 0;
    for s in 0..map.size() {
        most = most.max(map.list_len(s));
    }
    most
}

// Every map's structure is well formed: its starts and its targets are states.
pub fn stays_within<M: Map>(map: &M)
    ensures { WellFormed (structure M.L.Look.sign (M.meaning map.now)) }
{}
