// Calls as values, against the calls themselves.
use crate::tests::dice::{Dice, thrown_row, thrown_tables};
use calls::call::{Answer, Call};
use calls::fault::SessionFault;
use map::Map;
use rig::worked_example;
use session::held::Session;
use std::array;
use std::process::Abort;
use std::test::Fail;
use stl::row::Row;

// Calls on the four-state map, with the answers that they get where the run table has room for one move.
const CASES: [(Call, Answer); 18] = [
    (Call::Mark, Answer::Refused(SessionFault::NothingToMark)),
    (Call::Add(Row::True), Answer::Added(0)),
    (
        Call::Add(Row::Not(1)),
        Answer::Refused(SessionFault::NamesLaterRow),
    ),
    (Call::Verdict(0), Answer::Refused(SessionFault::NotMarked)),
    (Call::Mark, Answer::Marked(0, 0)),
    (Call::Add(Row::Sign(0)), Answer::Added(1)),
    (Call::Label(3, 1), Answer::Refused(SessionFault::NotMarked)),
    (Call::Mark, Answer::Marked(1, 0)),
    (Call::Label(3, 1), Answer::Label(true)),
    (
        Call::Label(4, 1),
        Answer::Refused(SessionFault::NoSuchState),
    ),
    (Call::Add(Row::Until(0, 1)), Answer::Added(2)),
    (
        Call::Witness(0, 2),
        Answer::Refused(SessionFault::NotMarked),
    ),
    (Call::Mark, Answer::Marked(2, 2)),
    (Call::Witness(1, 2), Answer::Witness(1)),
    (
        Call::Witness(0, 2),
        Answer::Refused(SessionFault::ShortRun(2)),
    ),
    (Call::Witness(0, 1), Answer::Refused(SessionFault::NotUntil)),
    (Call::Verdict(2), Answer::Verdict(true)),
    (Call::Verdict(1), Answer::Verdict(false)),
];

// The call, made by the function of its name.
fn made<M: Map>(
    map: &M,
    session: &mut Session,
    sheet: &mut [u64],
    work: &mut [u32],
    run: &mut [u32],
    asked: Call,
) -> Answer {
    match asked {
        Call::Add(row) => {
            let outcome = session.add(map, sheet, row);
            outcome.map_or_else(Answer::Refused, Answer::Added)
        }
        Call::Mark => {
            let outcome = session.mark(map, sheet);
            outcome.map_or_else(Answer::Refused, |m| Answer::Marked(m.row, m.reach))
        }
        Call::Label(s, r) => {
            let outcome = session.label(map, sheet, s, r);
            outcome.map_or_else(Answer::Refused, Answer::Label)
        }
        Call::Verdict(r) => {
            let outcome = session.verdict(map, sheet, r);
            outcome.map_or_else(Answer::Refused, Answer::Verdict)
        }
        Call::Witness(s, r) => {
            let outcome = session.witness(map, sheet, s, r, work, run);
            outcome.map_or_else(Answer::Refused, Answer::Witness)
        }
    }
}

// The last answer of a new session to these calls, each made by the function of its name.
fn last_made<M: Map>(
    map: &M,
    sheet: &mut [u64],
    work: &mut [u32],
    run: &mut [u32],
    asked: &[Call],
) -> Result<Answer, Fail> {
    let mut session = Session::open(map, sheet)?;
    let mut answer = Answer::Label(false);
    for call in asked {
        answer = made(map, &mut session, sheet, work, run, *call);
    }
    Ok(answer)
}

// The last answer of a new session to these calls, each made as a value.
fn last_performed<M: Map>(
    map: &M,
    sheet: &mut [u64],
    work: &mut [u32],
    run: &mut [u32],
    asked: &[Call],
) -> Result<Answer, Fail> {
    let mut session = Session::open(map, sheet)?;
    let mut answer = Answer::Label(false);
    for call in asked {
        answer = session.perform(map, sheet, work, run, *call);
    }
    Ok(answer)
}

// Both ways the last answer and all tables are the same. The run table has room for one move.
fn alike<M: Map>(rt: &impl Abort, map: &M, asked: &[Call]) -> Result<Answer, Fail> {
    let (mut sheet, mut work, mut run) = ([3; 6], [4; 5], [5; 2]);
    let answer = last_performed(map, &mut sheet, &mut work, &mut run, asked)?;
    let (mut sheet2, mut work2, mut run2) = ([3; 6], [4; 5], [5; 2]);
    let answer2 = last_made(map, &mut sheet2, &mut work2, &mut run2, asked)?;
    assert_eq!(rt; answer, answer2);
    assert!(rt; sheet == sheet2);
    assert!(rt; work == work2);
    assert!(rt; run == run2);
    Ok(answer)
}

// The calls of the cases.
fn written_asked() -> [Call; 18] {
    array::from_fn(|i| CASES.get(i).map_or(Call::Mark, |case| case.0))
}

#[test]
fn written_calls(rt: HostRuntime) -> Result<(), Fail> {
    let rig = worked_example();
    let map = rig.map();
    let asked = written_asked();
    for (i, (_, answer)) in CASES.iter().enumerate() {
        assert_eq!(rt; alike(&rt, &map, &asked[..i + 1])?, *answer);
    }
    Ok(())
}

// Any call, on up to 7 states and 12 rows.
fn thrown_call(dice: &mut Dice) -> Call {
    let (s, r) = (dice.below(7), dice.below(12));
    match dice.below(8) {
        0 | 1 | 2 => Call::Add(thrown_row(dice, r)),
        3 | 4 => Call::Mark,
        5 => Call::Label(s, r),
        6 => Call::Verdict(r),
        _ => Call::Witness(s, r),
    }
}

// Fifty such calls.
fn thrown_asked(dice: &mut Dice) -> [Call; 50] {
    array::from_fn(|_| thrown_call(dice))
}

// All is alike after each of the calls.
fn always_alike<M: Map>(rt: &impl Abort, map: &M, asked: &[Call]) -> Result<(), Fail> {
    for n in 1..asked.len() + 1 {
        alike(rt, map, &asked[..n])?;
    }
    Ok(())
}

#[test]
fn thrown_calls(rt: HostRuntime) -> Result<(), Fail> {
    let mut dice = Dice { seed: 15 };
    for _ in 0..60 {
        let tables = thrown_tables(rt.alloc(), &mut dice, 6)?;
        let asked = thrown_asked(&mut dice);
        always_alike(&rt, &tables.map(), &asked)?;
    }
    Ok(())
}
