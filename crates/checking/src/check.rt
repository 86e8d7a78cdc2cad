// The checker over two texts.
ghost use Rattle.std.specs.Prelude.{◌≡◌, ◌≤◌, length, IfOk};
ghost use Rattle.calls.specs.Histories.{Kept};
ghost use Rattle.checking.specs.Outputs.{Wrote, ReportByLogic, OfMap, Output, blank, Checks};
ghost use Rattle.checking.specs.Told.{Told};
ghost use Rattle.map.specs.Meaning.{structure};
ghost use Rattle.maptext.specs.Lent.{tables_in};
ghost use Rattle.session.specs.Sessions.{state};

use crate::fault::FaultLine;
use crate::marks::mark_all;
use look::Look;
use look::switch::SwitchLook;
use map::Map;
use maptext::read::read_map;
use maptext::tables::MapTables;
use report::write::report;
use ruletext::read::read_rules;
use session::held::Session;
use writing::fault::SaveFault;

// Marks the rows of a session, and writes the report; how many bytes it has.
fn write_report<M: Map>(session: &mut Session, map: &M, sheet: &mut [u64], out: &mut [u8]) -> usize
    requires kept { Kept (structure M.L.Look.sign (M.meaning map.now)) (state session.old) sheet.old }
    requires room { 1024 ≤ length out.old }
    ensures { Wrote (ReportByLogic (structure M.L.Look.sign (M.meaning map.now)) (state session.old).rows) out.old out.new result }
{
    mark_all(session, map, sheet);
    report(session, map, sheet, out).unwrap()
}

// Writes the report of the rows of a rule text on a map; how many bytes it has, or the line that is to be written.
fn check_map<M: Map>(
    map: &M,
    rules: &[u8],
    sheet: &mut [u64],
    out: &mut [u8],
) -> Result<usize, FaultLine>
    requires words { length sheet.old ≡ 1024 }
    requires small { (M.meaning map.now).size ≤ 1024 }
    requires room { 1024 ≤ length out.old }
    ensures { Told (OfMap (structure M.L.Look.sign (M.meaning map.now)) rules.now) out.old out.new result }
{
    let mut session = Session::open(map, sheet)?;
    read_rules(rules, &mut session, map, sheet).map_err(|fault| FaultLine::of_text(b'R', fault))?;
    Ok(write_report(&mut session, map, sheet, out))
}

// The same of a map text that is read into blank tables.
fn check_texts(
    map: &[u8],
    rules: &[u8],
    tables: &mut MapTables<'_>,
    out: &mut [u8],
) -> Result<usize, FaultLine>
    requires empty { tables_in tables.old ≡ blank }
    requires room { 1024 ≤ length out.old }
    ensures { Told (Output map.now rules.now) out.old out.new result }
{
    let size = read_map(map, tables).map_err(|fault| FaultLine::of_text(b'M', fault))?;
    check_map(&tables.map(size), rules, &mut [0; 1024], out)
}

// What the program writes of a map text and a rule text: the report of all rows, or the line of a fault. It is written to the
// front of a buffer of 1,024 bytes or more, and its length is answered; a shorter buffer is refused and left as it was.
pub fn check(map: &[u8], rules: &[u8], out: &mut [u8]) -> Result<usize, SaveFault>
    ensures checks { Checks map.now rules.now out.old out.new result }
    ensures within { IfOk result (λ n. n ≤ length out.old) }
{
    if out.len() < 1024 {
        return Err(SaveFault::NoRoom);
    }
    let mut looks = [SwitchLook { marks: 0 }; 1024];
    let mut starts = [0; 1024];
    let mut firsts = [0; 1025];
    let mut targets = [0; 8192];
    let mut tables = MapTables {
        looks: &mut looks,
        starts: &mut starts,
        firsts: &mut firsts,
        targets: &mut targets,
    };
    match check_texts(map, rules, &mut tables, out) {
        Ok(n) => Ok(n),
        Err(line) => Ok(line.write(out)),
    }
}
