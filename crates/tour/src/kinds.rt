// The other kinds of map: one of switches, and the joint of two maps.
use crate::show;
use joint::pair::JointMap;
use rig::worked_example;
use std::io;
use switches::made::SwitchMap;

// Two switches, and a command that turns switch 0 on and switch 1 off where switch 0 is off.
pub(crate) fn two_switches(rt: &HostRuntime) -> io::Result<()> {
    let rig = worked_example();
    println!(rt; "2. A map of two switches")?;
    println!(rt; "One command: it needs switch 0 off, and turns switch 0 on and switch 1 off.")?;
    let map = SwitchMap::new(rig.panel, &rig.commands);
    show::made(rt, &map)?;
    show::states(rt, &map)
}

// The two maps side by side.
pub(crate) fn joint_of_both(rt: &HostRuntime) -> io::Result<()> {
    let rig = worked_example();
    println!(rt; "3. The joint of the two maps")?;
    println!(rt;
        "State (a, b) has number a x 4 + b; sign 2k is sign k of a, sign 2k + 1 is sign k of b."
    )?;
    let switches = SwitchMap::new(rig.panel, &rig.commands);
    let four = rig.map();
    let map = JointMap::new(switches, four);
    show::made(rt, &map)?;
    show::states(rt, &map)
}
