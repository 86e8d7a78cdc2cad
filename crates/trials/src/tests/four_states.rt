// The four-state map, with every answer written out by hand.
use crate::tests::desk::Desk;
use crate::tests::dice::Dice;
use crate::tests::marks::add_all;
use crate::tests::small_maps::tried;
use crate::tests::witnesses::told;
use listed::table::ListedMap;
use map::Map;
use rig::{Rig, worked_example};
use std::process::Abort;
use std::test::Fail;
use stl::row::Row;

// The rows of the example, written out again, so that no test leans on them as they stand there.
pub const EIGHT: [Row; 8] = [
    Row::True,
    Row::Sign(0),
    Row::Sign(1),
    Row::Not(1),
    Row::Or(3, 2),
    Row::Not(4),
    Row::Until(0, 5),
    Row::Next(1),
];

// The words of the four states once the eight rows are marked.
pub const WORDS: [u64; 4] = [89, 221, 87, 99];

// Adds the eight rows, and marks the first `count`.
pub(crate) fn eight_rows<M: Map, const N: usize>(
    rt: &impl Abort,
    desk: &mut Desk<'_, M, N>,
    count: u32,
) -> Result<(), Fail> {
    add_all(rt, desk, &EIGHT)?;
    for r in 0..count {
        assert_eq!(rt; desk.mark()?.row, r);
    }
    Ok(())
}

#[test]
fn the_four_states_and_the_model(rt: HostRuntime) -> Result<(), Fail> {
    let rig = worked_example();
    tried(&rt, &rig.map(), &mut Dice { seed: 14 })
}

#[test]
fn labels_and_reaches(rt: HostRuntime) -> Result<(), Fail> {
    let rig = worked_example();
    let map = rig.map();
    let mut desk = Desk::open(&map, [9; 4])?;
    eight_rows(&rt, &mut desk, 6)?;
    let done = desk.mark()?;
    assert!(rt; done.row == 6 && done.reach == 3);
    let done = desk.mark()?;
    assert!(rt; done.row == 7 && done.reach == 0);
    assert!(rt; desk.sheet == WORDS);
    Ok(())
}

#[test]
fn verdicts(rt: HostRuntime) -> Result<(), Fail> {
    let rig = worked_example();
    let map = rig.map();
    let mut desk = Desk::open(&map, [9; 4])?;
    eight_rows(&rt, &mut desk, 8)?;
    let expected = [true, false, false, true, true, false, true, false];
    for (r, holds) in (0..).zip(expected) {
        assert_eq!(rt; desk.verdict(r)?, holds);
    }
    Ok(())
}

#[test]
fn runs(rt: HostRuntime) -> Result<(), Fail> {
    let rig = worked_example();
    let map = rig.map();
    let mut desk = Desk::open(&map, [9; 4])?;
    eight_rows(&rt, &mut desk, 8)?;
    let mut work = [5; 5];
    let mut run = [6; 5];
    assert_eq!(rt; told(desk.witness(0, 6, &mut work, &mut run)), Ok(2));
    assert!(rt; work == [2, 1, 3, 0, 5] && run == [0, 1, 3, 6, 6]);
    assert_eq!(rt; told(desk.witness(3, 6, &mut work, &mut run)), Ok(0));
    assert!(rt; work == [2, 1, 3, 0, 5] && run == [3, 1, 3, 6, 6]);
    assert_eq!(rt; told(desk.witness(2, 6, &mut work, &mut run)), Ok(3));
    assert!(rt; run == [2, 0, 1, 3, 6]);
    Ok(())
}

#[test]
fn a_map_without_starts_says_yes(rt: HostRuntime) -> Result<(), Fail> {
    let rig = worked_example();
    let map = ListedMap::new(&rig.looks, &[0; 4], &rig.firsts, &rig.targets);
    let mut desk = Desk::open(&map, [9; 4])?;
    eight_rows(&rt, &mut desk, 8)?;
    for r in 0..8 {
        assert!(rt; desk.verdict(r)?);
    }
    assert!(rt; desk.sheet == WORDS);
    Ok(())
}
