// What a session refuses, each refusal once.
use crate::rows::{Held, ready};
use crate::show;
use calls::fault::SessionFault;
use listed::table::ListedMap;
use look::switch::SwitchLook;
use map::Map;
use rig::{Rig, worked_example};
use session::held::Session;
use std::io;
use stl::row::Row;

// What was tried, and the refusal that it got.
fn tried<T: Drop>(
    rt: &HostRuntime,
    what: &str,
    outcome: Result<T, SessionFault>,
) -> io::Result<()> {
    print!(rt; "{what} ")?;
    match outcome {
        Ok(_) => println!(rt; "Granted."),
        Err(fault) => show::fault(rt, fault),
    }
}

// Opening a session: 16 and 17.
fn refuse_to_open(rt: &HostRuntime, rig: &Rig) -> io::Result<()> {
    let looks: [SwitchLook; 0] = [];
    let empty = ListedMap::new(&looks, &[], &[0], &[]);
    let map = rig.map();
    let mut sheet = [7; 3];
    tried(
        rt,
        "A session on a map without states.",
        Session::open(&empty, &mut sheet),
    )?;
    tried(
        rt,
        "A session on four states with a sheet of three words.",
        Session::open(&map, &mut sheet),
    )?;
    let [a, b, c] = sheet;
    println!(rt; "The sheet still holds {a} {b} {c}.")
}

// Rows: 18, 19 and 20; the label words are as before.
fn refuse_rows<M: Map>(
    rt: &HostRuntime,
    session: &mut Session,
    map: &M,
    sheet: &mut [u64; 4],
) -> io::Result<()> {
    tried(
        rt,
        "A ninth row that names row 8, itself.",
        session.add(map, sheet, Row::Not(8)),
    )?;
    tried(rt, "One more mark.", session.mark(map, sheet))?;
    for _ in 8..64 {
        let _ = session.add(map, sheet, Row::True);
    }
    tried(rt, "A 65th row.", session.add(map, sheet, Row::True))?;
    let [a, b, c, d] = *sheet;
    println!(rt; "The label words are still {a} {b} {c} {d}.")
}

// Labels and verdicts: 21 and 22.
fn refuse_labels<M: Map>(rt: &HostRuntime, held: &Held<'_, M>) -> io::Result<()> {
    tried(rt, "The label of state 4.", held.label(4, 6))?;
    tried(
        rt,
        "The verdict of row 8, which is not marked.",
        held.verdict(8),
    )
}

// What the two tables of a witness hold.
fn say_tables(rt: &HostRuntime, work: &[u32; 4], run: &[u32; 2]) -> io::Result<()> {
    let [a, b, c, d] = *work;
    let [e, f] = *run;
    println!(rt; "The work table holds {a} {b} {c} {d}, the run table {e} {f}.")
}

// Witnesses: 21 to 24 leave both tables as they were.
fn refuse_witnesses<M: Map>(rt: &HostRuntime, held: &Held<'_, M>) -> io::Result<()> {
    let mut work = [9; 4];
    let mut run = [9; 2];
    tried(
        rt,
        "A run from state 4.",
        held.witness(4, 6, &mut work, &mut run),
    )?;
    tried(
        rt,
        "A run for row 8, which is not marked.",
        held.witness(0, 8, &mut work, &mut run),
    )?;
    tried(
        rt,
        "A run for row 7, a next.",
        held.witness(0, 7, &mut work, &mut run),
    )?;
    let short = &mut work[0..3];
    tried(
        rt,
        "A run with a work table of three entries.",
        held.witness(0, 6, short, &mut run),
    )?;
    say_tables(rt, &work, &run)
}

// Witnesses: 26 leaves the work table filled.
fn refuse_room<M: Map>(rt: &HostRuntime, held: &Held<'_, M>) -> io::Result<()> {
    let mut work = [9; 4];
    let mut run = [9; 2];
    tried(
        rt,
        "A run from state 0 with a run table of two entries.",
        held.witness(0, 6, &mut work, &mut run),
    )?;
    say_tables(rt, &work, &run)
}

// Witnesses: 25 leaves the work table filled. No state ever satisfies `not true`.
fn refuse_for_want_of_a_run<M: Map>(rt: &HostRuntime, map: &M) -> io::Result<()> {
    let mut sheet = [0; 4];
    let mut work = [9; 4];
    let mut run = [9; 2];
    match ready(map, &mut sheet, &[Row::True, Row::Not(0), Row::Until(0, 1)]) {
        Ok(session) => tried(
            rt,
            "A run to what never holds.",
            session.witness(map, &sheet, 0, 2, &mut work, &mut run),
        )?,
        Err(fault) => show::fault(rt, fault)?,
    }
    say_tables(rt, &work, &run)
}

pub(crate) fn show_each(rt: &HostRuntime) -> io::Result<()> {
    let rig = worked_example();
    let map = rig.map();
    let mut sheet = [0; 4];
    println!(rt; "7. What a session refuses")?;
    refuse_to_open(rt, &rig)?;
    let mut session = match ready(&map, &mut sheet, &rig.rows) {
        Ok(session) => session,
        Err(fault) => return show::fault(rt, fault),
    };
    refuse_rows(rt, &mut session, &map, &mut sheet)?;
    let held = Held {
        session: &session,
        map: &map,
        sheet: &sheet,
    };
    refuse_labels(rt, &held)?;
    refuse_witnesses(rt, &held)?;
    refuse_room(rt, &held)?;
    refuse_for_want_of_a_run(rt, &map)
}
