// The five answers, and the readers above them, on the four-state tables with looks of each kind.
use crate::worked_example;
use listed::table::ListedMap;
use look::Look;
use look::joint::JointLook;
use look::level::LevelLook;
use map::Map;
use map::made::Made;
use map::read::{longest_list, moves_to, sign_at};
use std::process::Abort;

const MOVES: [(u32, u32); 4] = [(0, 1), (1, 2), (1, 3), (2, 0)];

// The moves and starts of the four-state map, whatever its looks.
fn has_the_four_states<M: Map>(rt: &impl Abort, map: &M) {
    assert_eq!(rt; map.size(), 4);
    for s in 0..6 {
        assert_eq!(rt; map.is_start(s), s == 0);
        assert_eq!(rt; map.look_of(s).is_some(), s < 4);
        for t in 0..6 {
            assert_eq!(rt; moves_to(map, s, t), MOVES.contains(&(s, t)));
        }
    }
    assert_eq!(rt; map.list_len(1), 2);
    assert_eq!(rt; map.entry(1, 0), Some(2));
    assert_eq!(rt; map.entry(1, 1), Some(3));
    assert_eq!(rt; map.entry(1, 2), None);
    assert_eq!(rt; map.list_len(3), 0);
    assert_eq!(rt; map.entry(3, 0), None);
    assert_eq!(rt; map.list_len(4), 0);
    assert_eq!(rt; map.entry(4, 0), None);
    assert_eq!(rt; map.entry(u32::MAX, u32::MAX), None);
    assert_eq!(rt; longest_list(map), 2);
}

#[test]
fn switch_looks_in_a_listed_map(rt: HostRuntime) {
    let rig = worked_example();
    let map = rig.map();
    has_the_four_states(&rt, &map);
    assert!(rt; !sign_at(&map, 0, 0) && !sign_at(&map, 0, 1));
    assert!(rt; !sign_at(&map, 1, 0) && sign_at(&map, 1, 1));
    assert!(rt; sign_at(&map, 2, 0) && sign_at(&map, 2, 1));
    assert!(rt; sign_at(&map, 3, 0) && !sign_at(&map, 3, 1));
    assert!(rt; !sign_at(&map, 4, 0) && !sign_at(&map, 3, 65535));
}

#[test]
fn level_looks_in_a_listed_map(rt: HostRuntime) {
    let rig = worked_example();
    let levels = [
        LevelLook { cue: 0, level: 0 },
        LevelLook { cue: 1, level: 16 },
        LevelLook { cue: 2, level: 255 },
        LevelLook { cue: 3, level: 15 },
    ];
    let map = ListedMap::new(&levels, &rig.starts, &rig.firsts, &rig.targets);
    has_the_four_states(&rt, &map);
    assert!(rt; sign_at(&map, 1, 1) && !sign_at(&map, 1, 2));
    assert!(rt; sign_at(&map, 2, 15) && !sign_at(&map, 2, 16));
    assert!(rt; sign_at(&map, 3, 0) && !sign_at(&map, 3, 1));
}

#[test]
fn joint_looks_in_a_listed_map(rt: HostRuntime) {
    let rig = worked_example();
    let dim = LevelLook { cue: 0, level: 20 };
    let looks = [
        JointLook {
            left: rig.looks[0],
            right: dim,
        },
        JointLook {
            left: rig.looks[1],
            right: dim,
        },
        JointLook {
            left: rig.looks[2],
            right: dim,
        },
        JointLook {
            left: rig.looks[3],
            right: dim,
        },
    ];
    let map = ListedMap::new(&looks, &rig.starts, &rig.firsts, &rig.targets);
    has_the_four_states(&rt, &map);
    assert!(rt; !sign_at(&map, 1, 0) && sign_at(&map, 1, 2));
    assert!(rt; sign_at(&map, 1, 1) && sign_at(&map, 1, 3) && !sign_at(&map, 1, 5));
}

#[test]
fn a_refused_map_has_nothing(rt: HostRuntime) {
    let rig = worked_example();
    let map = ListedMap::new(&rig.looks, &rig.starts, &rig.firsts, &[1, 2, 4, 0]);
    assert!(rt; map.fault().is_some());
    assert_eq!(rt; map.size(), 0);
    assert_eq!(rt; longest_list(&map), 0);
    for s in 0..5 {
        assert!(rt; !map.is_start(s) && map.look_of(s).is_none());
        assert!(rt; map.list_len(s) == 0 && map.entry(s, 0).is_none());
    }
    assert!(rt; !sign_at(&map, 2, 0) && !moves_to(&map, 0, 1));
}
