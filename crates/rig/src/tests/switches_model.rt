// Switch maps, against a model that takes masks apart bit by bit.
use crate::tests::told::{Told, told_of};
use map::Map;
use map::made::Made;
use std::array;
use std::process::Abort;
use std::test::Fail;
use switches::command::Command;
use switches::made::SwitchMap;
use switches::panel::Panel;

const IDLE: Command = Command {
    need_on: 0,
    need_off: 0,
    turn_on: 0,
    turn_off: 0,
};

// Whether every switch of `on` is on at s and every switch of `off` is off.
fn fits(s: u32, on: u32, off: u32) -> bool {
    let (mut s, mut on, mut off) = (s, on, off);
    for _ in 0..32 {
        if (on % 2 == 1 && s % 2 == 0) || (off % 2 == 1 && s % 2 == 1) {
            return false;
        }
        s /= 2;
        on /= 2;
        off /= 2;
    }
    true
}

// s with each switch of `off` cleared and then each of `on` set.
fn turned(s: u32, on: u32, off: u32) -> u32 {
    let (mut s, mut on, mut off) = (s, on, off);
    let mut result = 0;
    let mut weight: u32 = 1;
    for _ in 0..32 {
        if (s % 2 == 1 && off % 2 == 0) || on % 2 == 1 {
            result |= weight;
        }
        weight = weight.wrapping_mul(2);
        s /= 2;
        on /= 2;
        off /= 2;
    }
    result
}

// The list of s is the targets of the commands that fit, in their order.
fn lists_as_written(rt: &impl Abort, map: &SwitchMap<'_>, commands: &[Command], s: u32) {
    // counted by hand: each answer is tried at the number that it should have
    let mut count: u32 = 0;
    for c in commands.iter().filter(|c| fits(s, c.need_on, c.need_off)) {
        assert_eq!(rt; map.entry(s, count), Some(turned(s, c.turn_on, c.turn_off)));
        count = count.saturating_add(1);
    }
    assert_eq!(rt; map.list_len(s), count);
    assert_eq!(rt; map.entry(s, count), None);
}

// All five answers at every state, and past the last one.
fn answers_as_written(
    rt: &impl Abort,
    panel: Panel,
    commands: &[Command],
    size: u32,
) -> Result<(), Fail> {
    let map = SwitchMap::new(panel, commands);
    assert!(rt; map.fault().is_none());
    assert_eq!(rt; map.size(), size);
    for s in 0..size {
        lists_as_written(rt, &map, commands, s);
        assert_eq!(rt; map.is_start(s), fits(s, panel.start_on, panel.start_off));
        match map.look_of(s) {
            Some(look) => assert_eq!(rt; look.marks, s & panel.visible),
            None => return Err(Fail::new("no look")),
        }
    }
    assert!(rt; map.look_of(size).is_none() && !map.is_start(size));
    assert!(rt; map.list_len(size) == 0 && map.entry(size, 0).is_none());
    Ok(())
}

// A command for each number below 32, over 12 switches.
fn thirty_two() -> [Command; 32] {
    array::from_fn(|i| {
        let i = i as u32;
        let turn_on = (i * 73 + 5) % 4096;
        let turn_off = (i * 977 + 11) % 4096;
        Command {
            need_on: (i * 64) % 4096,
            need_off: i % 8,
            turn_on,
            turn_off: turn_off ^ (turn_off & turn_on),
        }
    })
}

#[test]
fn every_state_of_some_switch_maps(rt: HostRuntime) -> Result<(), Fail> {
    let one = Panel {
        bits: 1,
        visible: 1,
        start_on: 0,
        start_off: 1,
    };
    answers_as_written(&rt, one, &[], 2)?;
    answers_as_written(
        &rt,
        one,
        &[Command {
            need_off: 1,
            turn_on: 1,
            ..IDLE
        }],
        2,
    )?;
    let twelve = Panel {
        bits: 12,
        visible: 0xf0f,
        start_on: 6,
        start_off: 9,
    };
    answers_as_written(&rt, twelve, &[], 4096)?;
    answers_as_written(
        &rt,
        twelve,
        &[Command {
            need_on: 1,
            turn_on: 2048,
            turn_off: 1,
            ..IDLE
        }],
        4096,
    )?;
    answers_as_written(&rt, twelve, &thirty_two(), 4096)
}

#[test]
fn a_command_clears_before_it_sets(rt: HostRuntime) {
    let both = Command {
        turn_on: 6,
        turn_off: 3,
        ..IDLE
    };
    assert_eq!(rt; both.target(1), 6);
    assert_eq!(rt; both.target(9), 14);
    let never = Command {
        need_on: 1,
        need_off: 1,
        ..IDLE
    };
    assert!(rt; !never.is_open(0) && !never.is_open(1));
}

// What the map of a panel and commands tells.
fn told(panel: Panel, commands: &[Command]) -> Told {
    told_of(&SwitchMap::new(panel, commands))
}

// A panel and a command, by their parts.
fn panel(bits: u32, visible: u32, start_on: u32, start_off: u32) -> Panel {
    Panel {
        bits,
        visible,
        start_on,
        start_off,
    }
}

fn command(need_on: u32, need_off: u32, turn_on: u32, turn_off: u32) -> Command {
    Command {
        need_on,
        need_off,
        turn_on,
        turn_off,
    }
}

#[test]
fn switch_counts_and_command_counts(rt: HostRuntime) {
    assert_eq!(rt; told(panel(0, 0, 0, 0), &[]), (0, Some((5, None))));
    assert_eq!(rt; told(panel(1, 0, 0, 0), &[]), (2, None));
    assert_eq!(rt; told(panel(12, 7, 0, 0), &[]), (4096, None));
    assert_eq!(rt; told(panel(13, 7, 0, 0), &[]), (0, Some((5, None))));
    assert_eq!(rt;
        told(panel(u32::MAX, 7, 0, 0), &[IDLE; 33]),
        (0, Some((5, None)))
    );
    assert_eq!(rt; told(panel(3, 7, 0, 0), &[IDLE; 32]), (8, None));
    assert_eq!(rt; told(panel(3, 7, 0, 0), &[IDLE; 33]), (0, Some((6, None))));
    // a command that needs a switch both on and off may stand
    assert_eq!(rt; told(panel(3, 7, 0, 0), &[command(7, 7, 0, 0)]), (8, None));
}

#[test]
fn masks_at_fault(rt: HostRuntime) {
    let right = panel(3, 7, 7, 7);
    assert_eq!(rt; told(right, &[IDLE]), (8, None));
    assert_eq!(rt; told(panel(3, 8, 7, 7), &[]), (0, Some((7, None))));
    assert_eq!(rt; told(panel(3, 7, 8, 7), &[]), (0, Some((7, None))));
    assert_eq!(rt; told(panel(3, 7, 7, 8), &[]), (0, Some((7, None))));
    assert_eq!(rt;
        told(right, &[IDLE, command(8, 0, 0, 0)]),
        (0, Some((7, None)))
    );
    assert_eq!(rt;
        told(right, &[IDLE, command(0, 8, 0, 0)]),
        (0, Some((7, None)))
    );
    assert_eq!(rt;
        told(right, &[IDLE, command(0, 0, 8, 0)]),
        (0, Some((7, None)))
    );
    assert_eq!(rt;
        told(right, &[IDLE, command(0, 0, 0, 8)]),
        (0, Some((7, None)))
    );
    assert_eq!(rt;
        told(right, &[IDLE, command(0, 0, 6, 2)]),
        (0, Some((7, None)))
    );
    assert_eq!(rt; told(right, &[IDLE, command(0, 0, 5, 2)]), (8, None));
}
