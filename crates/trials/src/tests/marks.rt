// Labels, verdicts and reaches, against the model.
use crate::tests::desk::Desk;
use crate::tests::model::{Says, all_rows, at, reach, row_of};
use map::Map;
use std::array;
use std::process::Abort;
use std::test::Fail;
use stl::row::Row;

// Fills the words that no state has.
pub const SPARE: u64 = 0xa5a5_5a5a_c3c3_3c3c;

// The word of s after the marking of the first `count` rows.
fn word(facts: &[Says; 16], count: u32, s: u32) -> u64 {
    let mut bits = 0;
    let mut weight: u64 = 1;
    for r in 0..count {
        if at(&row_of(facts, r), s) {
            bits |= weight;
        }
        weight = weight.wrapping_mul(2);
    }
    bits
}

// The sheet of 20 words after the marking of the first `count` rows.
fn words<M: Map>(map: &M, facts: &[Says; 16], count: u32) -> [u64; 20] {
    array::from_fn(|s| {
        let s = s as u32;
        if s < map.size() {
            word(facts, count, s)
        } else {
            SPARE
        }
    })
}

// Whether the row holds at every start.
fn at_all_starts<M: Map>(map: &M, says: &Says) -> bool {
    (0..map.size()).all(|s| !map.is_start(s) || at(says, s))
}

// Adds the rows, in order.
pub(crate) fn add_all<M: Map, const N: usize>(
    rt: &impl Abort,
    desk: &mut Desk<'_, M, N>,
    rows: &[Row],
) -> Result<(), Fail> {
    for (r, row) in (0..).zip(rows) {
        assert_eq!(rt; desk.add(*row)?, r);
    }
    Ok(())
}

// The label and the verdict of each row, as the session tells them.
fn tells<M: Map>(rt: &impl Abort, desk: &Desk<'_, M, 20>, facts: &[Says; 16]) -> Result<(), Fail> {
    for (r, says) in (0..).zip(facts) {
        for s in 0..desk.map.size() {
            assert_eq!(rt; desk.label(s, r)?, at(says, s));
        }
        assert_eq!(rt; desk.verdict(r)?, at_all_starts(desk.map, says));
    }
    Ok(())
}

// Marks the rows in order; after each, the reach and every word of the sheet are the model's.
fn marks_all<M: Map>(
    rt: &impl Abort,
    desk: &mut Desk<'_, M, 20>,
    rows: &[Row; 16],
    facts: &[Says; 16],
) -> Result<(), Fail> {
    for (r, row) in (0..).zip(rows) {
        let done = desk.mark()?;
        assert_eq!(rt; done.row, r);
        assert_eq!(rt; done.reach, reach(desk.map, facts, *row));
        assert!(rt; desk.sheet == words(desk.map, facts, r + 1));
    }
    Ok(())
}

// The sheet, the reaches, the labels and the verdicts of sixteen rows.
pub(crate) fn agrees<M: Map>(rt: &impl Abort, map: &M, rows: &[Row; 16]) -> Result<(), Fail> {
    let facts = all_rows(map, rows);
    let mut desk = Desk::open(map, [SPARE; 20])?;
    assert!(rt; desk.sheet == words(map, &facts, 0));
    add_all(rt, &mut desk, rows)?;
    assert!(rt; desk.sheet == words(map, &facts, 0));
    marks_all(rt, &mut desk, rows, &facts)?;
    tells(rt, &desk, &facts)
}
