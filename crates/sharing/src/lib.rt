// Folds of maps: sessions on a full map and on a folded map, side by side, share their answers and their labels.
#![tactic(auto)]

ghost use Rattle.sharing.specs.Claims.{FoldsShare, FoldsStand, ChainsStand};

use look::Look;

// Sessions on a structure and on a fold of it share.
pub fn folds_share()
    ensures { FoldsShare }
{}

// Sessions on the two maps of an accepted table share, whatever the kind of look.
pub fn folds_stand<L: Look>()
    ensures { FoldsStand L.Look.sign L.Look.same }
{}

// Sessions on the first and the last map of a chain share, and its chained table is accepted.
pub fn chains_stand<L: Look>()
    ensures { ChainsStand L.Look.sign L.Look.same }
{}
