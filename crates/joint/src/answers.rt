// What a joint map answers.
ghost use Rattle.std.specs.Prelude.{◌≡◌, ◌+◌, ◌*◌, ◌≤◌};
ghost use Rattle.joint.specs.Bounds.{bounded};
ghost use Rattle.joint.specs.Pairs.{joint};

use crate::pair::JointMap;
use look::Look;
use look::joint::JointLook;
use map::Map;

impl<A: Map, B: Map> JointMap<A, B> {
    // The number of state (a, b).
    fn number_of(&self, a: u32, b: u32) -> u32
        requires { (a ≤ 4096) × (b ≤ 4096) }
        ensures { result ≡ a * (B.Map.meaning self.now.right).size + b }
    {
        a * self.right.size() + b
    }
}

impl<A: Map, B: Map> Map for JointMap<A, B> {
    type L = JointLook<A::L, B::L>;

    ghost meaning = { λ m. joint m.fault (A.Map.meaning m.left) (B.Map.meaning m.right) };

    ghost bounded = { λ m. bounded m.fault (A.Map.meaning m.left) (B.Map.meaning m.right) (A.Map.bounded m.left) (B.Map.bounded m.right) };

    fn size(&self) -> u32 {
        let states = self.left.size() * self.right.size();
        match self.fault {
            None if states <= 4096 => states,
            _ => 0,
        }
    }

    fn is_start(&self, s: u32) -> bool {
        if s >= self.size() {
            return false;
        }
        let n = self.right.size();
        self.left.is_start(s / n) && self.right.is_start(s % n)
    }

    fn look_of(&self, s: u32) -> Option<JointLook<A::L, B::L>> {
        if s >= self.size() {
            return None;
        }
        let n = self.right.size();
        let left = self.left.look_of(s / n)?;
        let right = self.right.look_of(s % n)?;
        Some(JointLook { left, right })
    }

    fn list_len(&self, s: u32) -> u32 {
        if s >= self.size() {
            return 0;
        }
        let n = self.right.size();
        let entries = self.left.list_len(s / n) * self.right.list_len(s % n);
        entries.min(32768)
    }

    fn entry(&self, s: u32, k: u32) -> Option<u32> {
        if k >= self.list_len(s) {
            return None;
        }
        let n = self.right.size();
        let (a, b) = (s / n, s % n);
        let w = self.right.list_len(b);
        let (left, right) = (self.left.entry(a, k / w)?, self.right.entry(b, k % w)?);
        Some(self.number_of(left, right))
    }
}
