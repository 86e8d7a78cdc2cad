// Rules on the four-state map: rows added, marked and asked after.
use crate::show;
use calls::fault::SessionFault;
use map::Map;
use rig::worked_example;
use session::held::Session;
use std::{fmt, io};
use stl::row::Row;

// A session with the map and the sheet that its calls are lent.
#[derive(Drop)]
pub(crate) struct Held<'a, M> {
    pub(crate) session: &'a Session,
    pub(crate) map: &'a M,
    pub(crate) sheet: &'a [u64],
}

impl<M: Map> Held<'_, M> {
    pub(crate) fn label(&self, s: u32, r: u32) -> Result<bool, SessionFault> {
        self.session.label(self.map, self.sheet, s, r)
    }

    pub(crate) fn verdict(&self, r: u32) -> Result<bool, SessionFault> {
        self.session.verdict(self.map, self.sheet, r)
    }

    pub(crate) fn witness(
        &self,
        s: u32,
        r: u32,
        work: &mut [u32],
        run: &mut [u32],
    ) -> Result<u32, SessionFault> {
        self.session.witness(self.map, self.sheet, s, r, work, run)
    }
}

// A session on the map with all the rows added and marked.
pub(crate) fn ready<M: Map>(
    map: &M,
    sheet: &mut [u64],
    rows: &[Row],
) -> Result<Session, SessionFault> {
    let mut session = Session::open(map, sheet)?;
    for row in rows {
        session.add(map, sheet, *row)?;
    }
    for _ in rows {
        session.mark(map, sheet)?;
    }
    Ok(session)
}

// A row in words.
#[derive(Clone, Copy)]
struct Words(Row);

impl fmt::Display for Words {
    fn fmt<W: fmt::Write>(&self, f: &mut fmt::Formatter<W>) -> fmt::Result {
        match self.0 {
            Row::True => write!(f, "true"),
            Row::Sign(k) => write!(f, "sign {k}"),
            Row::Not(a) => write!(f, "not {a}"),
            Row::Or(a, b) => write!(f, "or {a} {b}"),
            Row::Next(a) => write!(f, "next {a}"),
            Row::Until(a, b) => write!(f, "until {a} {b}"),
        }
    }
}

// Marks the next row, and prints its number, what it says, its verdict and its reach.
fn mark_one<M: Map>(
    rt: &HostRuntime,
    session: &mut Session,
    map: &M,
    sheet: &mut [u64],
    row: Row,
) -> io::Result<()> {
    let done = match session.mark(map, sheet) {
        Ok(done) => done,
        Err(fault) => return show::fault(rt, fault),
    };
    let (r, reach) = (done.row, done.reach);
    let words = Words(row);
    match session.verdict(map, sheet, r) {
        Ok(true) => println!(rt; "Row {r}, {words}: yes, reach {reach}."),
        Ok(false) => println!(rt; "Row {r}, {words}: no, reach {reach}."),
        Err(fault) => show::fault(rt, fault),
    }
}

// The rows whose labels are on at s.
fn labels_at<M: Map>(rt: &HostRuntime, held: &Held<'_, M>, s: u32) -> io::Result<()> {
    print!(rt; "State {s} has the labels of rows")?;
    for r in (0..8).filter(|r| held.label(s, *r) == Ok(true)) {
        print!(rt; " {r}")?;
    }
    let word = held.sheet.get(s as usize).copied().unwrap_or(0);
    println!(rt; ": word {word}.")
}

// Adds and marks each row.
fn mark_each<M: Map>(
    rt: &HostRuntime,
    session: &mut Session,
    map: &M,
    sheet: &mut [u64],
    rows: &[Row],
) -> io::Result<()> {
    for row in rows {
        let _ = session.add(map, sheet, *row);
        mark_one(rt, session, map, sheet, *row)?;
    }
    Ok(())
}

// The eight rows of the example: added, marked, and their labels read.
pub(crate) fn hold_the_rows(rt: &HostRuntime) -> io::Result<()> {
    let rig = worked_example();
    let map = rig.map();
    let mut sheet = [0; 4];
    println!(rt; "5. Eight rows on the map of four states")?;
    let mut session = match Session::open(&map, &mut sheet) {
        Ok(session) => session,
        Err(fault) => return show::fault(rt, fault),
    };
    println!(rt; "A row says yes when every start satisfies it.")?;
    mark_each(rt, &mut session, &map, &mut sheet, &rig.rows)?;
    let held = Held {
        session: &session,
        map: &map,
        sheet: &sheet,
    };
    for s in 0..4 {
        labels_at(rt, &held, s)?;
    }
    Ok(())
}
