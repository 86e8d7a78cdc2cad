// The switch look: 32 marks, each on or off.
ghost use Rattle.std.specs.Prelude.{◌≡◌};
ghost use Rattle.look.specs.Switch.{switch_sign, switch_same};
ghost use Rattle.std.proofs.Common.{rules};

use crate::Look;
use crate::word::is_on;

// Bit k of `marks` is mark k.
#[derive(Clone, Copy)]
pub struct SwitchLook {
    pub marks: u32,
}

impl Look for SwitchLook {
    ghost sign = { λ l k. switch_sign l.marks k };

    ghost same = { λ a b. switch_same a.marks b.marks };

    ghost reflexive = { Prim.search rules };

    ghost symmetric = { Prim.search rules };

    ghost transitive = { Prim.search rules };

    ghost agree = { Prim.search rules };

    fn shows(&self, k: u16) -> bool {
        is_on(u64::from(self.marks), u32::from(k))
    }

    fn same_as(&self, other: &Self) -> bool {
        self.marks == other.marks
    }
}
