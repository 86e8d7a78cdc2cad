// The results of the marked rows.
ghost use Rattle.std.specs.Prelude.{◌<◌, ◌≤◌, length};
ghost use Rattle.map.specs.Meaning.{structure};
ghost use Rattle.report.specs.Results.{Right, Collected};
ghost use Rattle.session.specs.Sessions.{state};

use crate::found::Found;
use look::Look;
use map::Map;
use session::held::Session;

// What stands where no row was looked at.
pub(crate) const NOTHING: Found = Found {
    yes: false,
    reach: 0,
};

// The verdict and the reach of the marked row r, neither of which is refused.
fn found_of<M: Map>(session: &Session, map: &M, sheet: &[u64], r: u32) -> Found
    requires words { (M.meaning map.now).size ≤ length sheet.now }
    requires marked { r < (state session.now).marked }
    ensures { Right (structure M.L.Look.sign (M.meaning map.now)) (state session.now).rows sheet.now r result }
{
    Found {
        yes: session.verdict(map, sheet, r).unwrap(),
        reach: session.reach(map, sheet, r).unwrap(),
    }
}

// Fills the first entries with the results of the marked rows. They are written by index: of what is written through an adapter of `iter_mut` a
// proof knows nothing.
pub(crate) fn collect<M: Map>(session: &Session, map: &M, sheet: &[u64], finds: &mut [Found])
    requires words { (M.meaning map.now).size ≤ length sheet.now }
    requires entries { (state session.now).marked ≤ length finds.old }
    ensures { Collected (structure M.L.Look.sign (M.meaning map.now)) (state session.now).rows sheet.now (state session.now).marked finds.new }
{
    for r in 0..session.marked() {
        finds[r as usize] = found_of(session, map, sheet, r);
    }
}
