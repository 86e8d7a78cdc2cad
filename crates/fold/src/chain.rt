// Two class tables made one.
ghost use Rattle.std.specs.Prelude.{◌≡◌, length, Decides};
ghost use Rattle.fold.specs.Chaining.{AllBelow, Chained, Joins};
ghost use Rattle.sharing.specs.Chains.{chained};
ghost use Rattle.sharing.specs.Claims.{ChainsStand};

use crate::fault::ChainFault;
use foldcheck::accepted::Accepted;
use look::Look;

// Whether each entry is below n.
fn all_below(first: &[u32], n: usize) -> bool
    ensures { Decides result (AllBelow n first.now) }
{
    first.iter().all(|class| (*class as usize) < n)
}

// For each entry of the first table, that entry of the second. Written by index: of what is written through an adapter of `iter_mut` a
// proof knows nothing.
fn write_chain(first: &[u32], second: &[u32], out: &mut [u32])
    requires sized { length out.old ≡ length first.now }
    requires below { AllBelow (length second.now) first.now }
    ensures { out.new ≡ chained first.now second.now }
{
    for (i, class) in first.iter().enumerate() {
        out[i] = second[*class as usize];
    }
}

// Writes the table that takes a state through the first table and then through the second.
pub fn chain(first: &[u32], second: &[u32], out: &mut [u32]) -> Result<(), ChainFault>
    ensures { Chained first.now second.now out.old result out.new }
{
    if out.len() != first.len() {
        return Err(ChainFault::WrongLength);
    }
    if !all_below(first, second.len()) {
        return Err(ChainFault::NoEntry);
    }
    write_chain(first, second, out);
    Ok(())
}

// Chains two accepted folds. Where the second folds the map on which the first ends, the chained table folds the first map onto the
// last, and so over chains of any length.
pub fn chain_folds<L: Look>(
    first: &Accepted<'_>,
    second: &Accepted<'_>,
    out: &mut [u32],
) -> Result<(), ChainFault>
    ensures chained { Chained first.now.table.now second.now.table.now out.old result out.new }
    ensures joins { Joins L.Look.sign L.Look.same first.now.table.now second.now.table.now result out.new }
    ensures stands { ChainsStand L.Look.sign L.Look.same }
{
    chain(first.classes(), second.classes(), out)
}
