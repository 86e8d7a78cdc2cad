// Marking all rows.
ghost use Rattle.calls.specs.Histories.{Kept};
ghost use Rattle.checking.specs.Marks.{AllMarked};
ghost use Rattle.map.specs.Meaning.{structure};
ghost use Rattle.session.specs.Sessions.{state};

use look::Look;
use map::Map;
use session::held::Session;

// Marks every row that is not marked yet.
pub(crate) fn mark_all<M: Map>(session: &mut Session, map: &M, sheet: &mut [u64])
    requires { Kept (structure M.L.Look.sign (M.meaning map.now)) (state session.old) sheet.old }
    ensures { AllMarked (structure M.L.Look.sign (M.meaning map.now)) (state session.old).rows (state session.new) sheet.new }
{
    while let Ok(_) = session.mark(map, sheet) {}
}
