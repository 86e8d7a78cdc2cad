// What a listed map answers.
ghost use Rattle.std.specs.Prelude.{◌≡◌, ◌≤◌, length, nat_lt};
ghost use Rattle.listed.specs.Meant.{meant, within_bounds};
ghost use Rattle.std.specs.List.{slice_get};

use crate::table::ListedMap;
use look::Look;
use map::Map;

impl<'a, L> ListedMap<'a, L> {
    // Whether there is a state s.
    fn has(&self, s: u32) -> bool
        ensures { result ≡ nat_lt s (meant self.now).size }
    {
        self.fault.is_none() && (s as usize) < self.looks.len()
    }

    // The list of s: the part of the targets that starts at its first.
    fn list_of(&self, s: u32) -> &'a [u32]
        ensures { result.now ≡ (meant self.now).list s }
    {
        if !self.has(s) {
            return &self.targets[0..0];
        }
        let first = self.firsts[s as usize] as usize;
        let end = self.firsts[s as usize + 1] as usize;
        &self.targets[first..end]
    }
}

// How many entries the list has.
fn count_entries(list: &[u32]) -> u32
    requires { length list.now ≤ 32768 }
    ensures { result ≡ length list.now }
{
    list.len() as u32
}

// Entry k of the list.
fn read_entry(list: &[u32], k: u32) -> Option<u32>
    ensures { result ≡ slice_get list.now k }
{
    list.get(k as usize).copied()
}

impl<'a, L: Look> Map for ListedMap<'a, L> {
    type L = L;

    ghost meaning = { λ m. meant m };

    ghost bounded = { λ m. within_bounds m };

    fn size(&self) -> u32 {
        match self.fault {
            None => self.looks.len() as u32,
            Some(_) => 0,
        }
    }

    fn is_start(&self, s: u32) -> bool {
        self.has(s) && self.starts[s as usize] != 0
    }

    fn look_of(&self, s: u32) -> Option<L> {
        if self.has(s) {
            Some(self.looks[s as usize])
        } else {
            None
        }
    }

    fn list_len(&self, s: u32) -> u32 {
        count_entries(self.list_of(s))
    }

    fn entry(&self, s: u32, k: u32) -> Option<u32> {
        read_entry(self.list_of(s), k)
    }
}
