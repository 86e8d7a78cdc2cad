// What makes no map: each time one thing is broken.
use crate::show::became;
use joint::pair::JointMap;
use listed::table::ListedMap;
use look::switch::SwitchLook;
use rig::worked_example;
use std::io;
use switches::command::Command;
use switches::made::SwitchMap;
use switches::panel::Panel;

// One look more than a map may have.
pub(crate) fn too_many_looks(rt: &HostRuntime) -> io::Result<()> {
    let looks = [SwitchLook { marks: 0 }; 4097];
    let starts = [0; 4097];
    let firsts = [0; 4098];
    became(
        rt,
        "4097 looks.",
        &ListedMap::new(&looks, &starts, &firsts, &[]),
    )
}

// A start byte left out.
pub(crate) fn wrong_lengths(rt: &HostRuntime) -> io::Result<()> {
    let rig = worked_example();
    became(
        rt,
        "Four looks and three start bytes.",
        &ListedMap::new(&rig.looks, &[1, 0, 0], &rig.firsts, &rig.targets),
    )
}

// A first below the one before it.
pub(crate) fn wrong_first(rt: &HostRuntime) -> io::Result<()> {
    let rig = worked_example();
    became(
        rt,
        "Firsts 0 3 1 4 4.",
        &ListedMap::new(&rig.looks, &rig.starts, &[0, 3, 1, 4, 4], &rig.targets),
    )
}

// A target past the last state.
pub(crate) fn wrong_target(rt: &HostRuntime) -> io::Result<()> {
    let rig = worked_example();
    became(
        rt,
        "Targets 1 2 4 0.",
        &ListedMap::new(&rig.looks, &rig.starts, &rig.firsts, &[1, 2, 4, 0]),
    )
}

// One switch too many.
pub(crate) fn wrong_switch_count(rt: &HostRuntime) -> io::Result<()> {
    let rig = worked_example();
    became(
        rt,
        "13 switches.",
        &SwitchMap::new(
            Panel {
                bits: 13,
                ..rig.panel
            },
            &rig.commands,
        ),
    )
}

// One command too many.
pub(crate) fn too_many_commands(rt: &HostRuntime) -> io::Result<()> {
    let rig = worked_example();
    became(
        rt,
        "33 commands.",
        &SwitchMap::new(rig.panel, &[rig.commands[0]; 33]),
    )
}

// A command that turns switch 1 both on and off.
pub(crate) fn wrong_mask(rt: &HostRuntime) -> io::Result<()> {
    let rig = worked_example();
    let both = Command {
        need_on: 0,
        need_off: 0,
        turn_on: 2,
        turn_off: 2,
    };
    became(
        rt,
        "A command that turns switch 1 both on and off.",
        &SwitchMap::new(rig.panel, &[both]),
    )
}

// Twelve switches beside twelve.
pub(crate) fn too_many_states(rt: &HostRuntime) -> io::Result<()> {
    let panel = Panel {
        bits: 12,
        visible: 0,
        start_on: 0,
        start_off: 0,
    };
    became(
        rt,
        "Twelve switches beside twelve.",
        &JointMap::new(SwitchMap::new(panel, &[]), SwitchMap::new(panel, &[])),
    )
}

// One state with 182 entries beside another: 33,124 pairs.
pub(crate) fn lists_too_long(rt: &HostRuntime) -> io::Result<()> {
    let looks = [SwitchLook { marks: 0 }];
    let targets = [0; 182];
    let one = ListedMap::new(&looks, &[1], &[0, 182], &targets);
    let other = ListedMap::new(&looks, &[1], &[0, 182], &targets);
    became(
        rt,
        "A list of 182 entries beside one of 182.",
        &JointMap::new(one, other),
    )
}
