// Joint maps of every kind of map, against pairs that are worked out one by one.
use crate::tests::told::{Told, told_of};
use crate::{Rig, worked_example};
use joint::pair::JointMap;
use listed::table::ListedMap;
use look::Look;
use look::switch::SwitchLook;
use map::Map;
use map::made::Made;
use map::read::sign_at;
use std::alloc::{AllocError, Global};
use std::process::Abort;
use std::test::Fail;
use switches::command::Command;
use switches::made::SwitchMap;
use switches::panel::Panel;

const FLIP: [Command; 2] = [
    Command {
        need_on: 0,
        need_off: 1,
        turn_on: 1,
        turn_off: 2,
    },
    Command {
        need_on: 1,
        need_off: 0,
        turn_on: 2,
        turn_off: 1,
    },
];

const PANEL: Panel = Panel {
    bits: 2,
    visible: 3,
    start_on: 0,
    start_off: 2,
};

// The entries of the pair (a, b) at number s, in order.
fn entries_as_paired<A: Map, B: Map, J: Map>(
    rt: &impl Abort,
    left: &A,
    right: &B,
    both: &J,
    a: u32,
    b: u32,
    s: u32,
) {
    // counted by hand, as are the pairs below: that they are numbered in this order is what is tried
    let mut k: u32 = 0;
    for i in 0..left.list_len(a) {
        for j in 0..right.list_len(b) {
            let x = left.entry(a, i).unwrap_or(0);
            let y = right.entry(b, j).unwrap_or(0);
            assert_eq!(rt;
                both.entry(s, k),
                Some(x.wrapping_mul(right.size()).wrapping_add(y))
            );
            k = k.saturating_add(1);
        }
    }
    assert_eq!(rt; both.list_len(s), k);
    assert_eq!(rt; both.entry(s, k), None);
}

// Start, signs and entries of every pair, counted in order.
fn answers_as_paired<A: Map, B: Map, J: Map>(rt: &impl Abort, left: &A, right: &B, both: &J) {
    let mut s: u32 = 0;
    for a in 0..left.size() {
        for b in 0..right.size() {
            assert_eq!(rt; both.is_start(s), left.is_start(a) && right.is_start(b));
            assert!(rt; both.look_of(s).is_some());
            for k in 0..8 {
                assert_eq!(rt; sign_at(both, s, 2 * k), sign_at(left, a, k));
                assert_eq!(rt; sign_at(both, s, 2 * k + 1), sign_at(right, b, k));
            }
            entries_as_paired(rt, left, right, both, a, b, s);
            s = s.saturating_add(1);
        }
    }
    assert_eq!(rt; both.size(), s);
    assert!(rt; both.look_of(s).is_none() && !both.is_start(s));
    assert!(rt; both.list_len(s) == 0 && both.entry(s, 0).is_none());
}

// A map of two switches, made anew.
fn flip() -> SwitchMap<'static> {
    SwitchMap::new(PANEL, &FLIP)
}

#[test]
fn joints_of_listed_and_switch_maps(rt: HostRuntime) {
    let rig = worked_example();
    answers_as_paired(&rt, &rig.map(), &flip(), &JointMap::new(rig.map(), flip()));
    answers_as_paired(&rt, &flip(), &rig.map(), &JointMap::new(flip(), rig.map()));
    answers_as_paired(
        &rt,
        &rig.map(),
        &rig.map(),
        &JointMap::new(rig.map(), rig.map()),
    );
}

#[test]
fn joints_of_a_joint(rt: HostRuntime) {
    let rig = worked_example();
    let both = JointMap::new(rig.map(), flip());
    answers_as_paired(
        &rt,
        &both,
        &flip(),
        &JointMap::new(JointMap::new(rig.map(), flip()), flip()),
    );
    answers_as_paired(
        &rt,
        &rig.map(),
        &both,
        &JointMap::new(rig.map(), JointMap::new(rig.map(), flip())),
    );
}

// A listed map without states.
fn empty() -> ListedMap<'static, SwitchLook> {
    ListedMap::new(&[], &[], &[0], &[])
}

// A switch map with a command too many.
fn refused() -> SwitchMap<'static> {
    SwitchMap::new(PANEL, &[FLIP[0]; 33])
}

#[test]
fn joints_with_an_empty_map(rt: HostRuntime) {
    let rig = worked_example();
    assert!(rt; empty().fault().is_none());
    assert_eq!(rt; told(rig.map(), empty()), (0, None));
    answers_as_paired(
        &rt,
        &rig.map(),
        &empty(),
        &JointMap::new(rig.map(), empty()),
    );
}

#[test]
fn joints_with_a_refused_map(rt: HostRuntime) {
    let rig = worked_example();
    assert!(rt; refused().fault().is_some());
    assert_eq!(rt; told(refused(), rig.map()), (0, None));
    answers_as_paired(
        &rt,
        &refused(),
        &rig.map(),
        &JointMap::new(refused(), rig.map()),
    );
}

// What the joint of two maps tells.
fn told<A: Map + Drop, B: Map + Drop>(left: A, right: B) -> Told {
    told_of(&JointMap::new(left, right))
}

// What the joint of two maps without moves tells, of so many states each, up to 65.
fn told_of_sizes(left: usize, right: usize) -> Told {
    let looks = [SwitchLook { marks: 0 }; 65];
    let starts = [1; 65];
    let firsts = [0; 66];
    let a = left.min(65);
    let b = right.min(65);
    let one = ListedMap::new(&looks[0..a], &starts[0..a], &firsts[0..a + 1], &[]);
    let other = ListedMap::new(&looks[0..b], &starts[0..b], &firsts[0..b + 1], &[]);
    told(one, other)
}

#[test]
fn sizes_at_the_bound(rt: HostRuntime) {
    assert_eq!(rt; told_of_sizes(64, 64), (4096, None));
    assert_eq!(rt; told_of_sizes(63, 65), (4095, None));
    assert_eq!(rt; told_of_sizes(64, 65), (0, Some((8, None))));
    assert_eq!(rt; told_of_sizes(65, 64), (0, Some((8, None))));
    assert_eq!(rt; told_of_sizes(65, 65), (0, Some((8, None))));
}

// One state that moves to itself so many times.
fn told_of_lists(heap: Global, left: usize, right: usize) -> Result<Told, AllocError> {
    let looks = [SwitchLook { marks: 0 }];
    let ones = vec![in heap; 0u32; left]?;
    let others = vec![in heap; 0u32; right]?;
    let one_firsts = [0, (ones.len() & 0xffff) as u32];
    let other_firsts = [0, (others.len() & 0xffff) as u32];
    let one = ListedMap::new(&looks, &[1], &one_firsts, &ones);
    let other = ListedMap::new(&looks, &[1], &other_firsts, &others);
    Ok(told(one, other))
}

#[test]
fn lists_at_the_bound(rt: HostRuntime) -> Result<(), Fail> {
    let heap = rt.alloc();
    assert_eq!(rt; told_of_lists(heap, 128, 256)?, (1, None));
    assert_eq!(rt; told_of_lists(heap, 32768, 1)?, (1, None));
    assert_eq!(rt; told_of_lists(heap, 32768, 0)?, (1, None));
    assert_eq!(rt; told_of_lists(heap, 32767, 2)?, (0, Some((9, None))));
    assert_eq!(rt; told_of_lists(heap, 11, 2979)?, (0, Some((9, None))));
    assert_eq!(rt; told_of_lists(heap, 2, 16385)?, (0, Some((9, None))));
    assert_eq!(rt; told_of_lists(heap, 32768, 32768)?, (0, Some((9, None))));
    Ok(())
}
