// Each refusal by its number, with all that is lent as it was.
use crate::tests::desk::Desk;
use crate::tests::four_states::{WORDS, eight_rows};
use crate::tests::marks::SPARE;
use crate::tests::model::NONE;
use crate::tests::witnesses::told;
use calls::fault::SessionFault;
use listed::table::ListedMap;
use look::switch::SwitchLook;
use map::Map;
use map::refusal::Refusal;
use rig::worked_example;
use session::held::Session;
use std::process::Abort;
use std::test::Fail;
use stl::row::Row;

// Five words, of which the last is spare.
const FIVE: [u64; 5] = [SPARE; 5];

// The five words once seven of the eight rows are marked: bit 7 is off everywhere.
const SEVEN: [u64; 5] = [89, 93, 87, 99, SPARE];

// Work tables and run tables before a call.
const OLD: [u32; 5] = [71, 72, 73, 74, 75];

// The number of the refusal, if there is one.
fn number<T: Drop>(answer: Result<T, SessionFault>) -> Option<u8> {
    answer.err().map(|fault| fault.number())
}

// A session with eight rows and seven marks goes on as if nothing had been refused.
fn goes_on<M: Map>(rt: &impl Abort, desk: Desk<'_, M, 5>) -> Result<(), Fail> {
    let mut desk = desk;
    assert!(rt; desk.sheet == SEVEN);
    for (s, word) in (0..).zip(WORDS) {
        for r in 0..7 {
            assert_eq!(rt; desk.label(s, r)?, (word >> r) & 1 == 1);
        }
    }
    assert_eq!(rt; number(desk.label(0, 7)), Some(22));
    let done = desk.mark()?;
    assert!(rt; done.row == 7 && done.reach == 0);
    assert!(rt; desk.sheet == [WORDS[0], WORDS[1], WORDS[2], WORDS[3], SPARE]);
    assert_eq!(rt; number(desk.mark()), Some(20));
    assert_eq!(rt; desk.add(Row::Next(7))?, 8);
    Ok(())
}

// A run from s for row r is refused by this number, and the tables are as they were.
fn refuses_run<M: Map>(rt: &impl Abort, desk: &Desk<'_, M, 5>, s: u32, r: u32, expected: u8) {
    let (mut work, mut run) = (OLD, OLD);
    let answer = desk.witness(s, r, &mut work, &mut run);
    assert_eq!(rt; told(answer), Err((expected, None)));
    assert!(rt; work == OLD && run == OLD);
}

// A listed map without states.
fn empty() -> ListedMap<'static, SwitchLook> {
    ListedMap::new(&[], &[], &[0], &[])
}

// No session opens on the map with this many words, and the sheet is as it was.
fn refuses_open<M: Map>(rt: &impl Abort, map: &M, words: usize, expected: u8) {
    let mut sheet = FIVE;
    let opened = Session::open(map, &mut sheet[0..words.min(5)]);
    assert_eq!(rt; number(opened), Some(expected));
    assert!(rt; sheet == FIVE);
}

#[test]
fn no_state(rt: HostRuntime) {
    refuses_open(&rt, &empty(), 5, 16);
    refuses_open(&rt, &empty(), 0, 16);
    let rig = worked_example();
    let map = ListedMap::new(&rig.looks, &rig.starts, &rig.firsts, &[1, 2, 4, 0]);
    refuses_open(&rt, &map, 5, 16);
}

#[test]
fn a_short_sheet_to_open(rt: HostRuntime) {
    let rig = worked_example();
    let map = rig.map();
    refuses_open(&rt, &map, 3, 17);
    refuses_open(&rt, &map, 0, 17);
    let mut sheet = FIVE;
    assert_eq!(rt; number(Session::open(&map, &mut sheet)), None);
    assert!(rt; sheet == [0, 0, 0, 0, SPARE]);
}

// Every call is refused where the sheet is too short.
fn refuses_all<M: Map>(rt: &impl Abort, desk: &mut Desk<'_, M, 5>, sheet: &mut [u64]) {
    let (mut work, mut run) = (OLD, OLD);
    let map = desk.map;
    assert_eq!(rt; number(desk.session.add(map, sheet, Row::True)), Some(17));
    assert_eq!(rt; number(desk.session.add(map, sheet, Row::Not(8))), Some(17));
    assert_eq!(rt; number(desk.session.mark(map, sheet)), Some(17));
    assert_eq!(rt; number(desk.session.label(map, sheet, 0, 0)), Some(17));
    assert_eq!(rt; number(desk.session.verdict(map, sheet, 0)), Some(17));
    let answer = desk.session.witness(map, sheet, 0, 6, &mut work, &mut run);
    assert_eq!(rt; told(answer), Err((17, None)));
    assert!(rt; work == OLD && run == OLD);
}

#[test]
fn a_short_sheet(rt: HostRuntime) -> Result<(), Fail> {
    let rig = worked_example();
    let map = rig.map();
    let mut desk = Desk::open(&map, FIVE)?;
    eight_rows(&rt, &mut desk, 7)?;
    let mut short = [SEVEN[0], SEVEN[1], SEVEN[2]];
    refuses_all(&rt, &mut desk, &mut short);
    assert!(rt; short == [SEVEN[0], SEVEN[1], SEVEN[2]]);
    goes_on(&rt, desk)
}

// Row number r of a full list: true, not true, true, and so on.
fn in_turn(r: u32) -> Row {
    match r % 2 {
        0 => Row::True,
        _ => Row::Not(r.saturating_sub(1)),
    }
}

// Adds 64 rows, and then marks them.
fn fill<M: Map>(rt: &impl Abort, desk: &mut Desk<'_, M, 5>) -> Result<(), Fail> {
    for r in 0..64 {
        assert_eq!(rt; desk.add(in_turn(r))?, r);
    }
    assert_eq!(rt; number(desk.add(Row::True)), Some(18));
    assert_eq!(rt; number(desk.add(Row::Not(64))), Some(18));
    for r in 0..64 {
        assert_eq!(rt; desk.mark()?.row, r);
    }
    Ok(())
}

#[test]
fn a_row_too_many(rt: HostRuntime) -> Result<(), Fail> {
    let rig = worked_example();
    let map = rig.map();
    let mut desk = Desk::open(&map, FIVE)?;
    fill(&rt, &mut desk)?;
    assert_eq!(rt; number(desk.add(Row::True)), Some(18));
    assert_eq!(rt; number(desk.mark()), Some(20));
    assert_eq!(rt; number(desk.label(3, 64)), Some(22));
    assert!(rt; desk.label(3, 62)?);
    assert!(rt; !desk.label(3, 63)?);
    let word = 0x5555_5555_5555_5555;
    assert!(rt; desk.sheet == [word, word, word, word, SPARE]);
    Ok(())
}

#[test]
fn a_row_that_names_no_earlier_row(rt: HostRuntime) -> Result<(), Fail> {
    let rig = worked_example();
    let map = rig.map();
    let mut desk = Desk::open(&map, FIVE)?;
    eight_rows(&rt, &mut desk, 7)?;
    for row in [
        Row::Not(8),
        Row::Next(9),
        Row::Or(0, 8),
        Row::Or(8, 0),
        Row::Until(u32::MAX, 0),
        Row::Until(0, 8),
    ] {
        assert_eq!(rt; number(desk.add(row)), Some(19));
    }
    goes_on(&rt, desk)
}

#[test]
fn nothing_to_mark(rt: HostRuntime) -> Result<(), Fail> {
    let rig = worked_example();
    let map = rig.map();
    let mut desk = Desk::open(&map, FIVE)?;
    eight_rows(&rt, &mut desk, 8)?;
    let before = desk.sheet;
    assert_eq!(rt; number(desk.mark()), Some(20));
    assert_eq!(rt; number(desk.mark()), Some(20));
    assert!(rt; desk.sheet == before);
    assert!(rt; desk.label(1, 7)?);
    assert_eq!(rt; desk.add(Row::Not(7))?, 8);
    assert_eq!(rt; desk.mark()?.row, 8);
    assert!(rt; !desk.label(1, 8)?);
    Ok(())
}

#[test]
fn no_such_state(rt: HostRuntime) -> Result<(), Fail> {
    let rig = worked_example();
    let map = rig.map();
    let mut desk = Desk::open(&map, FIVE)?;
    eight_rows(&rt, &mut desk, 7)?;
    assert_eq!(rt; number(desk.label(4, 0)), Some(21));
    assert_eq!(rt; number(desk.label(u32::MAX, 64)), Some(21));
    refuses_run(&rt, &desk, 4, 6, 21);
    refuses_run(&rt, &desk, u32::MAX, 64, 21);
    goes_on(&rt, desk)
}

#[test]
fn not_marked(rt: HostRuntime) -> Result<(), Fail> {
    let rig = worked_example();
    let map = rig.map();
    let mut desk = Desk::open(&map, FIVE)?;
    eight_rows(&rt, &mut desk, 7)?;
    for r in [7, 8, 64, u32::MAX] {
        assert_eq!(rt; number(desk.label(0, r)), Some(22));
        assert_eq!(rt; number(desk.verdict(r)), Some(22));
        refuses_run(&rt, &desk, 0, r, 22);
    }
    goes_on(&rt, desk)
}

#[test]
fn no_until(rt: HostRuntime) -> Result<(), Fail> {
    let rig = worked_example();
    let map = rig.map();
    let mut desk = Desk::open(&map, FIVE)?;
    eight_rows(&rt, &mut desk, 7)?;
    for r in 0..6 {
        refuses_run(&rt, &desk, 0, r, 23);
    }
    goes_on(&rt, desk)
}

#[test]
fn a_short_work_table(rt: HostRuntime) -> Result<(), Fail> {
    let rig = worked_example();
    let map = rig.map();
    let (mut work, mut run) = (OLD, OLD);
    let mut desk = Desk::open(&map, FIVE)?;
    eight_rows(&rt, &mut desk, 7)?;
    let answer = desk.witness(0, 6, &mut work[0..3], &mut run);
    assert_eq!(rt; told(answer), Err((24, None)));
    let answer = desk.witness(0, 6, &mut work[0..0], &mut run[0..0]);
    assert_eq!(rt; told(answer), Err((24, None)));
    assert!(rt; work == OLD && run == OLD);
    goes_on(&rt, desk)
}

// There is no run from s for row 8, but the lengths of all states are told.
fn no_run_from<M: Map>(rt: &impl Abort, desk: &Desk<'_, M, 5>, s: u32) {
    let (mut work, mut run) = (OLD, OLD);
    let answer = desk.witness(s, 8, &mut work, &mut run);
    assert_eq!(rt; told(answer), Err((25, None)));
    assert!(rt; work == [NONE, 1, NONE, 0, 75] && run == OLD);
}

#[test]
fn no_run(rt: HostRuntime) -> Result<(), Fail> {
    let rig = worked_example();
    let map = rig.map();
    let mut desk = Desk::open(&map, FIVE)?;
    eight_rows(&rt, &mut desk, 8)?;
    assert_eq!(rt; desk.add(Row::Until(2, 5))?, 8);
    let done = desk.mark()?;
    assert!(rt; done.row == 8 && done.reach == 1);
    let before = desk.sheet;
    no_run_from(&rt, &desk, 0);
    no_run_from(&rt, &desk, 2);
    assert!(rt; desk.sheet == before);
    assert_eq!(rt; number(desk.mark()), Some(20));
    assert_eq!(rt; desk.add(Row::Not(8))?, 9);
    Ok(())
}

#[test]
fn a_short_run_table(rt: HostRuntime) -> Result<(), Fail> {
    let rig = worked_example();
    let map = rig.map();
    let (mut work, mut run) = (OLD, OLD);
    let mut desk = Desk::open(&map, FIVE)?;
    eight_rows(&rt, &mut desk, 7)?;
    let answer = desk.witness(0, 6, &mut work, &mut run[0..2]);
    assert_eq!(rt; told(answer), Err((26, Some(2))));
    assert!(rt; work == [2, 1, 3, 0, 75] && run == OLD);
    work = OLD;
    let answer = desk.witness(3, 6, &mut work, &mut run[0..0]);
    assert_eq!(rt; told(answer), Err((26, Some(0))));
    assert!(rt; work == [2, 1, 3, 0, 75] && run == OLD);
    goes_on(&rt, desk)
}
