// Offered folds, and their check.
ghost use Rattle.std.specs.Prelude.{◌≡◌, IfOk, OnOk};
ghost use Rattle.std.specs.Result.{result_err};
ghost use Rattle.foldcheck.specs.Verdicts.{Decided};
ghost use Rattle.map.specs.Meaning.{structure};
ghost use Rattle.sharing.specs.Accepts.{class_of};
ghost use Rattle.sharing.specs.Shares.{Share};

use crate::accepted::Accepted;
use crate::fault::FoldFault;
use crate::questions::Folding;
use look::Look;
use map::Map;

// A class table that was not checked.
#[derive(Drop)]
pub struct Offered<'a> {
    table: &'a [u32],
}

// Offers the table.
pub fn offer(classes: &[u32]) -> Offered<'_>
    ensures { result.table.now ≡ classes.now }
{
    Offered { table: classes }
}

impl<'a> Offered<'a> {
    // Accepts the table if it folds the full map onto the folded one, else says why not. Sessions on the two maps of an accepted
    // table share.
    pub fn check<F: Map, G: Map<L = F::L>>(
        self,
        full: &F,
        folded: &G,
    ) -> Result<Accepted<'a>, FoldFault>
        ensures table { IfOk result (λ a. a.table.now ≡ self.entry.table.now) }
        ensures verdict { Decided F.L.Look.sign F.L.Look.same (F.Map.meaning full.now) (G.Map.meaning folded.now) self.entry.table.now (result_err result) }
        ensures share { OnOk result (Share (structure F.L.Look.sign (F.Map.meaning full.now)) (structure F.L.Look.sign (G.Map.meaning folded.now)) (class_of self.entry.table.now)) }
    {
        let fold = Folding::new(full, folded, self.table).ok_or(FoldFault::WrongLength)?;
        fold.ask()?;
        Ok(Accepted { table: self.table })
    }
}
