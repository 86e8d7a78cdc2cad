// The report, written once there is room for it.
ghost use Rattle.std.specs.Prelude.{◌≤◌, length};
ghost use Rattle.map.specs.Meaning.{structure};
ghost use Rattle.report.specs.Reports.{Reported, Reports, Fits};
ghost use Rattle.report.specs.Texts.{report_text};
ghost use Rattle.session.specs.Sessions.{state};

use crate::collect::{NOTHING, collect};
use crate::fault::ReportFault;
use crate::found::Found;
use crate::lines::Report;
use look::Look;
use map::Map;
use session::held::Session;
use writing::save::save;

// Saves the report of the results.
fn save_report(finds: &[Found], out: &mut [u8]) -> Result<usize, ReportFault>
    requires { length finds.now ≤ 64 }
    ensures { Reported (report_text finds.now) out.old out.new result }
{
    Ok(save(&Report { finds }, out)?)
}

// Writes a line for each marked row, with its verdict and its reach by the labels in the sheet now, and answers the length
// of the text. Where there is no room for all of it, nothing is written; 1,024 bytes are always enough.
pub fn report<M: Map>(
    session: &Session,
    map: &M,
    sheet: &[u64],
    out: &mut [u8],
) -> Result<usize, ReportFault>
    ensures reports { Reports (structure M.L.Look.sign (M.meaning map.now)) (state session.now) sheet.now out.old out.new result }
    ensures fits { Fits out.old result }
{
    if sheet.len() < map.size() as usize {
        return Err(ReportFault::ShortSheet);
    }
    let mut finds = [NOTHING; 64];
    collect(session, map, sheet, &mut finds);
    let n = session.marked() as usize;
    save_report(&finds[..n], out)
}
