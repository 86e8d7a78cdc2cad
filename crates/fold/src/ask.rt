// Labels asked through a fold.
ghost use Rattle.std.specs.Prelude.{◌≡◌, length};
ghost use Rattle.fold.specs.Asking.{asked, SpeaksOfFull};
ghost use Rattle.map.specs.Meaning.{structure};
ghost use Rattle.session.specs.Sessions.{state};
ghost use Rattle.sharing.specs.Through.{read};

use calls::fault::SessionFault;
use foldcheck::accepted::Accepted;
use look::Look;
use map::Map;
use session::held::Session;

// The class of s; for a state that the fold does not have, a number that no map has. The folded session is asked with a number, and
// refuses this one as a missing state, after what it asks before: an Option here would ask the session's questions a second time.
pub(crate) fn class_or_none(fold: &Accepted<'_>, s: u32) -> u32
    ensures { result ≡ read fold.now.table.now s }
{
    fold.class(s).unwrap_or(u32::MAX)
}

// The label of row r at state s of the full map: that of its class, by a session on the folded map. Map and sheet are lent one by one, as to
// each call of a session.
pub fn ask_through<G: Map>(
    fold: &Accepted<'_>,
    folded: &G,
    session: &Session,
    sheet: &[u64],
    s: u32,
    r: u32,
) -> Result<bool, SessionFault>
    ensures label { result ≡ asked (G.meaning folded.now).size sheet.now fold.now.table.now (state session.now).marked s r }
    ensures logic { SpeaksOfFull G.L.Look.sign G.L.Look.same (G.meaning folded.now) fold.now.table.now (state session.now) sheet.now s r result }
{
    session.label(folded, sheet, class_or_none(fold, s), r)
}
