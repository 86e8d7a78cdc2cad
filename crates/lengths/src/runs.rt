// A run read off a table of lengths.
ghost use Rattle.std.specs.Prelude.{◌<◌, ◌≤◌, length, slice_index};
ghost use Rattle.lengths.specs.Rounds.{Falls, Drawn};
ghost use Rattle.map.specs.Meaning.{structure};

use crate::rounds::step_to;
use look::Look;
use map::Map;

// Writes a run from s down the table, s first, into the first entries of `run`. By index: of what is written through an adapter of
// `iter_mut` a proof knows nothing.
pub fn write_run<M: Map>(map: &M, s: u32, work: &[u32], run: &mut [u32])
    requires state { s < (M.meaning map.now).size }
    requires entries { (M.meaning map.now).size ≤ length work.now }
    requires some { slice_index work.now s < 4294967295 }
    requires room { slice_index work.now s < length run.old }
    requires falls { Falls (structure M.L.Look.sign (M.meaning map.now)) work.now }
    ensures { Drawn (structure M.L.Look.sign (M.meaning map.now)) work.now s run.old run.new }
{
    run[0] = s;
    let mut at = s;
    let n = work[s as usize];
    for i in 0..n {
        at = step_to(map, at, work, n - i - 1).unwrap();
        run[i as usize + 1] = at;
    }
}
