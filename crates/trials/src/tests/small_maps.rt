// Many small maps of all kinds.
use crate::tests::dice::{Dice, thrown_board, thrown_rows, thrown_tables};
use crate::tests::marks::agrees;
use crate::tests::model::{all_rows, reach};
use crate::tests::witnesses::witnesses_agree;
use joint::pair::JointMap;
use map::Map;
use std::process::Abort;
use std::test::Fail;
use stl::row::Row;

// All six kinds, with untils over untils.
const ROWS: [Row; 16] = [
    Row::True,
    Row::Sign(0),
    Row::Sign(1),
    Row::Not(1),
    Row::Or(3, 2),
    Row::Not(4),
    Row::Until(0, 5),
    Row::Next(1),
    Row::Until(3, 2),
    Row::Until(8, 1),
    Row::Next(9),
    Row::Not(6),
    Row::Until(2, 11),
    Row::Until(10, 12),
    Row::Or(13, 7),
    Row::Until(14, 5),
];

// The written rows and some thrown ones, on a map of 1 to 16 states.
pub(crate) fn tried<M: Map>(rt: &impl Abort, map: &M, dice: &mut Dice) -> Result<(), Fail> {
    assert!(rt; map.size() > 0 && map.size() <= 16);
    agrees(rt, map, &ROWS)?;
    witnesses_agree(rt, map, &ROWS)?;
    let thrown = thrown_rows(dice);
    agrees(rt, map, &thrown)?;
    witnesses_agree(rt, map, &thrown)
}

// The greatest reach of the written rows, by the model.
fn longest_run<M: Map>(map: &M) -> u32 {
    let facts = all_rows(map, &ROWS);
    let reaches = ROWS.iter().map(|row| reach(map, &facts, *row));
    reaches.max().unwrap_or(0)
}

#[test]
fn many_listed_maps_have_long_runs(rt: HostRuntime) -> Result<(), Fail> {
    let mut dice = Dice { seed: 11 };
    let mut long: u32 = 0;
    for _ in 0..1000 {
        let made = thrown_tables(rt.alloc(), &mut dice, 6)?;
        if longest_run(&made.map()) >= 3 {
            long = long.saturating_add(1);
        }
    }
    assert!(rt; long > 40, "{long} maps");
    Ok(())
}

#[test]
fn listed_maps(rt: HostRuntime) -> Result<(), Fail> {
    let mut dice = Dice { seed: 11 };
    for _ in 0..1000 {
        let made = thrown_tables(rt.alloc(), &mut dice, 6)?;
        tried(&rt, &made.map(), &mut dice)?;
    }
    Ok(())
}

#[test]
fn switch_maps(rt: HostRuntime) -> Result<(), Fail> {
    let mut dice = Dice { seed: 12 };
    for _ in 0..300 {
        let made = thrown_board(rt.alloc(), &mut dice, 3)?;
        tried(&rt, &made.map(), &mut dice)?;
    }
    Ok(())
}

#[test]
fn joint_maps(rt: HostRuntime) -> Result<(), Fail> {
    let mut dice = Dice { seed: 13 };
    for _ in 0..100 {
        let left = thrown_tables(rt.alloc(), &mut dice, 4)?;
        let right = thrown_board(rt.alloc(), &mut dice, 2)?;
        tried(&rt, &JointMap::new(left.map(), right.map()), &mut dice)?;
        tried(&rt, &JointMap::new(right.map(), left.map()), &mut dice)?;
    }
    Ok(())
}
