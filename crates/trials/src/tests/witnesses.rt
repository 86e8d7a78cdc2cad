// Shortest runs, against the model.
use crate::tests::desk::Desk;
use crate::tests::marks::{SPARE, add_all};
use crate::tests::model::{NONE, Says, all_rows, at, row_of, shortest};
use calls::fault::SessionFault;
use map::Map;
use map::refusal::Refusal;
use std::process::Abort;
use std::test::Fail;
use stl::row::Row;

// Fills the work table and the run table.
pub const OLD_WORK: u32 = 7777;

pub const OLD_RUN: u32 = 8888;

// What was answered, or the number of the refusal and what that carries.
pub(crate) fn told<T: Drop>(answer: Result<T, SessionFault>) -> Result<T, (u8, Option<u32>)> {
    answer.map_err(|fault| (fault.number(), fault.carried()))
}

// Whether t is in the list of s.
fn leads<M: Map>(map: &M, s: u32, t: u32) -> bool {
    (0..map.list_len(s)).any(|k| map.entry(s, k) == Some(t))
}

// The table has the shortest length of each state, and is as it was past them.
fn has_lengths<M: Map>(rt: &impl Abort, map: &M, best: &[Option<u32>; 16], work: &[u32; 20]) {
    for (s, entry) in work.iter().enumerate() {
        let expected = if s < map.size() as usize {
            length_at(best, s).unwrap_or(NONE)
        } else {
            OLD_WORK
        };
        assert_eq!(rt; *entry, expected);
    }
}

// The shortest length at s, where there is one.
fn length_at(best: &[Option<u32>; 16], s: usize) -> Option<u32> {
    best.get(s).copied().flatten()
}

// The table has a run of this length from s for a until b, and is as it was past it.
fn has_run<M: Map>(
    rt: &impl Abort,
    map: &M,
    run: &[u32; 20],
    s: u32,
    length: u32,
    a: &Says,
    b: &Says,
) -> Result<(), Fail> {
    assert_eq!(rt; run[0], s);
    let mut last = s;
    for (i, x) in (0..).zip(run).skip(1) {
        if i <= length {
            assert!(rt; at(a, last) || at(b, last));
            assert!(rt; leads(map, last, *x));
            last = *x;
        } else {
            assert_eq!(rt; *x, OLD_RUN);
        }
    }
    assert!(rt; length < 20 && at(b, last));
    Ok(())
}

// What is told of a run from s for the row r, which is a until b.
fn shows_run<M: Map>(
    rt: &impl Abort,
    desk: &Desk<'_, M, 20>,
    s: u32,
    r: u32,
    a: &Says,
    b: &Says,
) -> Result<(), Fail> {
    let best = shortest(desk.map, a, b);
    let mut work = [OLD_WORK; 20];
    let mut run = [OLD_RUN; 20];
    let answer = told(desk.witness(s, r, &mut work, &mut run));
    has_lengths(rt, desk.map, &best, &work);
    let Some(length) = length_at(&best, s as usize) else {
        assert_eq!(rt; answer, Err((25, None)));
        assert!(rt; run == [OLD_RUN; 20]);
        return Ok(());
    };
    assert_eq!(rt; answer, Ok(length));
    has_run(rt, desk.map, &run, s, length, a, b)
}

// A session with the rows added and marked.
fn marked<'a, M: Map>(
    rt: &impl Abort,
    map: &'a M,
    rows: &[Row; 16],
) -> Result<Desk<'a, M, 20>, Fail> {
    let mut desk = Desk::open(map, [SPARE; 20])?;
    add_all(rt, &mut desk, rows)?;
    for _ in rows {
        desk.mark()?;
    }
    Ok(desk)
}

// The run of every until row from every state, which leaves the sheet as it was.
pub(crate) fn witnesses_agree<M: Map>(
    rt: &impl Abort,
    map: &M,
    rows: &[Row; 16],
) -> Result<(), Fail> {
    let facts = all_rows(map, rows);
    let desk = marked(rt, map, rows)?;
    for (r, row) in (0..).zip(rows) {
        if let Row::Until(a, b) = *row {
            let (a, b) = (row_of(&facts, a), row_of(&facts, b));
            for s in 0..map.size() {
                shows_run(rt, &desk, s, r, &a, &b)?;
            }
        }
    }
    Ok(())
}
