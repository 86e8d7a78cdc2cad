// What rows say on a map of at most 16 states, worked out in the plainest way.
use look::Look;
use map::Map;
use std::array;
use stl::row::Row;

// Stands where there is no run.
pub const NONE: u32 = 4294967295;

// What a row says at each state.
pub type Says = [bool; 16];

// Whether a row that says so holds at s.
pub(crate) fn at(says: &Says, s: u32) -> bool {
    says.get(s as usize).copied().unwrap_or(false)
}

// What row a of those says.
pub(crate) fn row_of(facts: &[Says; 16], a: u32) -> Says {
    facts.get(a as usize).copied().unwrap_or([false; 16])
}

// Where the sign is on.
fn signs<M: Map>(map: &M, k: u16) -> Says {
    array::from_fn(|s| map.look_of(s as u32).is_some_and(|look| look.shows(k)))
}

// Where a does not hold.
fn nots(a: &Says) -> Says {
    array::from_fn(|s| !at(a, s as u32))
}

// Where a or b holds.
fn ors(a: &Says, b: &Says) -> Says {
    array::from_fn(|s| at(a, s as u32) || at(b, s as u32))
}

// Whether some entry of the list of s leads to a state where a holds.
fn some_entry<M: Map>(map: &M, s: u32, a: &Says) -> bool {
    (0..map.list_len(s)).any(|k| map.entry(s, k).is_some_and(|t| at(a, t)))
}

// Where some entry leads to a state where a holds.
fn nexts<M: Map>(map: &M, a: &Says) -> Says {
    array::from_fn(|s| some_entry(map, s as u32, a))
}

// Where a run of at most d + 1 moves begins, by where one of at most d moves does.
fn one_more<M: Map>(map: &M, a: &Says, b: &Says, can: &Says) -> Says {
    array::from_fn(|s| {
        let s = s as u32;
        at(b, s) || (at(a, s) && some_entry(map, s, can))
    })
}

// Where a run of at most 16 moves begins.
fn untils<M: Map>(map: &M, a: &Says, b: &Says) -> Says {
    let mut can = *b;
    for _ in 0..16 {
        can = one_more(map, a, b, &can);
    }
    can
}

// The shortest length of a run from each state: the least d for which one of at most d moves begins there.
pub(crate) fn shortest<M: Map>(map: &M, a: &Says, b: &Says) -> [Option<u32>; 16] {
    let mut best = [None; 16];
    let mut can = *b;
    for d in 0..17 {
        for (best, can) in best.iter_mut().zip(can) {
            if can && best.is_none() {
                *best = Some(d);
            }
        }
        can = one_more(map, a, b, &can);
    }
    best
}

// What the row says, by what the earlier rows say.
fn one_row<M: Map>(map: &M, facts: &[Says; 16], row: Row) -> Says {
    match row {
        Row::True => [true; 16],
        Row::Sign(k) => signs(map, k),
        Row::Not(a) => nots(&row_of(facts, a)),
        Row::Or(a, b) => ors(&row_of(facts, a), &row_of(facts, b)),
        Row::Next(a) => nexts(map, &row_of(facts, a)),
        Row::Until(a, b) => untils(map, &row_of(facts, a), &row_of(facts, b)),
    }
}

// What each of the rows says.
pub(crate) fn all_rows<M: Map>(map: &M, rows: &[Row; 16]) -> [Says; 16] {
    let mut facts = [[false; 16]; 16];
    for (r, row) in rows.iter().enumerate() {
        facts[r] = one_row(map, &facts, *row);
    }
    facts
}

// The greatest of the shortest lengths of an until, 0 where there is none and for other rows.
pub(crate) fn reach<M: Map>(map: &M, facts: &[Says; 16], row: Row) -> u32 {
    let Row::Until(a, b) = row else {
        return 0;
    };
    let best = shortest(map, &row_of(facts, a), &row_of(facts, b));
    let lengths = best.iter().take(map.size() as usize);
    lengths.map(|length| length.unwrap_or(0)).max().unwrap_or(0)
}
