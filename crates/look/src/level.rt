// The level look: the cue that set it and a level, which shows in steps of 16.
ghost use Rattle.std.specs.Prelude.{◌≡◌};
ghost use Rattle.look.specs.Level.{level_sign, level_same};
ghost use Rattle.std.proofs.Common.{rules};

use crate::Look;

#[derive(Clone, Copy)]
pub struct LevelLook {
    pub cue: u16,
    pub level: u8,
}

impl Look for LevelLook {
    ghost sign = { λ l k. level_sign l.level k };

    ghost same = { λ a b. level_same a.level b.level };

    ghost reflexive = { Prim.search rules };

    ghost symmetric = { Prim.search rules };

    ghost transitive = { Prim.search rules };

    ghost agree = { Prim.search rules };

    fn shows(&self, k: u16) -> bool {
        k < 16 && u16::from(self.level) >= 16 * k
    }

    fn same_as(&self, other: &Self) -> bool {
        self.level / 16 == other.level / 16
    }
}
