// Shortest runs on the four-state map.
use crate::rows::{Held, ready};
use crate::show;
use map::Map;
use rig::worked_example;
use std::io;

// Steps a shortest run for row 6 from s.
fn step_from<M: Map>(rt: &HostRuntime, held: &Held<'_, M>, s: u32) -> io::Result<()> {
    let mut work = [0; 4];
    let mut run = [0; 4];
    let moves = match held.witness(s, 6, &mut work, &mut run) {
        Ok(moves) => moves,
        Err(fault) => return show::fault(rt, fault),
    };
    print!(rt; "From state {s}:")?;
    for t in run.iter().take(moves as usize + 1) {
        print!(rt; " {t}")?;
    }
    println!(rt; ", length {moves}.")
}

// A shortest run for row 6 from each state.
pub(crate) fn step_the_runs(rt: &HostRuntime) -> io::Result<()> {
    let rig = worked_example();
    let map = rig.map();
    let mut sheet = [0; 4];
    println!(rt; "6. Shortest runs for row 6: to a state that satisfies row 5")?;
    let session = match ready(&map, &mut sheet, &rig.rows) {
        Ok(session) => session,
        Err(fault) => return show::fault(rt, fault),
    };
    let held = Held {
        session: &session,
        map: &map,
        sheet: &sheet,
    };
    for s in 0..4 {
        step_from(rt, &held, s)?;
    }
    Ok(())
}
