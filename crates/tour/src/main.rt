// A tour of the checker: one real task from start to finish, told as it goes.
#![tactic(auto)]

mod broken;
mod kinds;
mod refusals;
mod rows;
mod runs;
mod show;

use rig::worked_example;
use std::io;

// The four-state map: read its tables, make it, ask it, walk it.
fn walk_the_example(rt: &HostRuntime) -> io::Result<()> {
    let rig = worked_example();
    println!(rt; "1. A map of four states")?;
    show::tables(rt, &rig.looks, &rig.starts, &rig.firsts, &rig.targets)?;
    let map = rig.map();
    show::made(rt, &map)?;
    show::states(rt, &map)?;
    show::walk(rt, &map, 0)
}

// What makes no map, once for each refusal.
fn offer_what_is_broken(rt: &HostRuntime) -> io::Result<()> {
    println!(rt; "4. What makes no map")?;
    broken::too_many_looks(rt)?;
    broken::wrong_lengths(rt)?;
    broken::wrong_first(rt)?;
    broken::wrong_target(rt)?;
    broken::wrong_switch_count(rt)?;
    broken::too_many_commands(rt)?;
    broken::wrong_mask(rt)?;
    broken::too_many_states(rt)?;
    broken::lists_too_long(rt)
}

fn main(rt: HostRuntime) -> io::Result<()> {
    walk_the_example(&rt)?;
    println!(rt; "")?;
    kinds::two_switches(&rt)?;
    println!(rt; "")?;
    kinds::joint_of_both(&rt)?;
    println!(rt; "")?;
    offer_what_is_broken(&rt)?;
    println!(rt; "")?;
    rows::hold_the_rows(&rt)?;
    println!(rt; "")?;
    runs::step_the_runs(&rt)?;
    println!(rt; "")?;
    refusals::show_each(&rt)
}
