// The joint look: a left and a right look, of any two kinds, side by side.
ghost use Rattle.std.specs.Prelude.{◌≡◌};
ghost use Rattle.look.specs.Joint.{joint_sign, joint_same};
ghost use Rattle.std.proofs.Common.{rules};

use crate::Look;

#[derive(Clone, Copy)]
pub struct JointLook<P, Q> {
    pub left: P,
    pub right: Q,
}

impl<P: Look, Q: Look> Look for JointLook<P, Q> {
    ghost sign = { λ l. joint_sign (P.Look.sign l.left) (Q.Look.sign l.right) };

    ghost same = { λ a b. joint_same (P.Look.same a.left b.left) (Q.Look.same a.right b.right) };

    ghost reflexive = { Prim.search rules };

    ghost symmetric = { Prim.search rules };

    ghost transitive = { Prim.search rules };

    ghost agree = { Prim.search rules };

    fn shows(&self, k: u16) -> bool {
        if k % 2 == 0 {
            self.left.shows(k / 2)
        } else {
            self.right.shows(k / 2)
        }
    }

    fn same_as(&self, other: &Self) -> bool {
        self.left.same_as(&other.left) && self.right.same_as(&other.right)
    }
}
