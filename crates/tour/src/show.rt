// What is printed of a map, and of a session's refusals.
use calls::fault::SessionFault;
use look::Look;
use look::switch::SwitchLook;
use map::Map;
use map::made::Made;
use map::read::sign_at;
use map::refusal::Refusal;
use std::io;

// How many entries each table has.
pub(crate) fn tables(
    rt: &HostRuntime,
    looks: &[SwitchLook],
    starts: &[u8],
    firsts: &[u32],
    targets: &[u32],
) -> io::Result<()> {
    let (a, b, c, d) = (looks.len(), starts.len(), firsts.len(), targets.len());
    println!(rt; "Tables read: {a} looks, {b} start bytes, {c} firsts, {d} targets.")
}

// That the map was made, with its size.
pub(crate) fn made<M: Map>(rt: &HostRuntime, map: &M) -> io::Result<()> {
    let size = map.size();
    println!(rt; "Map made: {size} states.")
}

// The signs that are on at s, of the first 32.
fn signs<M: Map>(rt: &HostRuntime, map: &M, s: u32) -> io::Result<()> {
    let mut none = true;
    for k in 0..32 {
        if sign_at(map, s, k) {
            none = false;
            print!(rt; " {k}")?;
        }
    }
    if none { print!(rt; " none") } else { Ok(()) }
}

// The states that s moves to, in the order of its list.
fn moves<M: Map>(rt: &HostRuntime, map: &M, s: u32) -> io::Result<()> {
    for k in 0..map.list_len(s) {
        if let Some(t) = map.entry(s, k) {
            print!(rt; " {t}")?;
        }
    }
    if map.list_len(s) == 0 {
        print!(rt; " nothing")
    } else {
        Ok(())
    }
}

// Each state with its signs and moves, and whether it is a start.
pub(crate) fn states<M: Map>(rt: &HostRuntime, map: &M) -> io::Result<()> {
    for s in 0..map.size() {
        print!(rt; "State {s}: signs on:")?;
        signs(rt, map, s)?;
        print!(rt; "; moves to:")?;
        moves(rt, map, s)?;
        let end = if map.is_start(s) { "; a start." } else { "." };
        println!(rt; "{end}")?;
    }
    Ok(())
}

// A walk from s that takes the last entry of each list, until there is no move or as many moves as states.
pub(crate) fn walk<M: Map>(rt: &HostRuntime, map: &M, s: u32) -> io::Result<()> {
    print!(rt; "A walk by the last entry of each list: {s}")?;
    let mut at = s;
    for _ in 0..map.size() {
        let len = map.list_len(at);
        if len == 0 {
            return println!(rt; ", and there is no move from {at}.");
        }
        if let Some(t) = map.entry(at, len - 1) {
            print!(rt; ", {t}")?;
            at = t;
        }
    }
    println!(rt; ", and so on.")
}

// What a map was to be made of, and what became of it: its size, or its refusal, with the entry that this carries, if any.
pub(crate) fn became<M: Map + Made>(rt: &HostRuntime, what: &str, map: &M) -> io::Result<()> {
    print!(rt; "{what} ")?;
    let Some(fault) = map.fault() else {
        return made(rt, map);
    };
    let (number, size) = (fault.number(), map.size());
    match fault.carried() {
        Some(i) => println!(rt;
            "Refused, number {number} at entry {i}: {fault}. The map has size {size}."
        ),
        None => println!(rt; "Refused, number {number}: {fault}. The map has size {size}."),
    }
}

// A session's refusal: its number, the length that it carries, if any, and the reason.
pub(crate) fn fault(rt: &HostRuntime, fault: SessionFault) -> io::Result<()> {
    let number = fault.number();
    match fault.carried() {
        Some(moves) => println!(rt; "Refused, number {number} with length {moves}: {fault}."),
        None => println!(rt; "Refused, number {number}: {fault}."),
    }
}
