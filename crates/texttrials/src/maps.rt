// Cases of map texts.
use crate::coded::{decode, take_number};
use crate::said::{put_coded, say, say_fault};
use listed::table::ListedMap;
use look::switch::SwitchLook;
use map::Map;
use map::refusal::Refusal;
use maptext::progress::MapSize;
use maptext::read::read_map;
use maptext::tables::MapTables;
use reader::fault::TextFault;
use saving::maps::write_map;
use std::alloc::{AllocError, Global};

// The tables that a map text is read into.
#[derive(Drop)]
struct Tables {
    looks: Vec<SwitchLook>,
    starts: Vec<u8>,
    firsts: Vec<u32>,
    targets: Vec<u32>,
}

impl Tables {
    // Tables of these lengths, every entry of which is 7.
    fn new(
        heap: Global,
        looks: usize,
        starts: usize,
        firsts: usize,
        targets: usize,
    ) -> Result<Tables, AllocError> {
        Ok(Tables {
            looks: vec![in heap; SwitchLook { marks: 7 }; looks]?,
            starts: vec![in heap; 7; starts]?,
            firsts: vec![in heap; 7; firsts]?,
            targets: vec![in heap; 7; targets]?,
        })
    }

    // Reads a map text into the tables.
    fn read(&mut self, text: &[u8]) -> Result<MapSize, TextFault> {
        let mut lent = MapTables {
            looks: self.looks.as_mut_slice(),
            starts: self.starts.as_mut_slice(),
            firsts: self.firsts.as_mut_slice(),
            targets: self.targets.as_mut_slice(),
        };
        read_map(text, &mut lent)
    }

    // The map over what a text of this size wrote into them.
    fn map(&self, size: MapSize) -> ListedMap<'_, SwitchLook> {
        size.map(
            self.looks.as_slice(),
            self.starts.as_slice(),
            self.firsts.as_slice(),
            self.targets.as_slice(),
        )
    }
}

// Appends the name of a table, and its first sixteen entries, each as a number.
fn say_table<T, F: Fn(&T) -> u32>(out: &mut Vec<u8>, name: &str, table: &[T], number: F)
    requires { F.IsAlwaysCallable number }
{
    say(out, format_args!(" {name}"));
    for entry in table.iter().take(16) {
        let n = number(entry);
        say(out, format_args!(" {n}"));
    }
}

// `map LOOKS STARTS FIRSTS TARGETS TEXT`: what reading the text into tables of these lengths answers, and what they hold then.
pub(crate) fn run_map(heap: Global, out: &mut Vec<u8>, rest: &str) -> Result<(), AllocError> {
    let (looks, rest) = take_number(rest);
    let (starts, rest) = take_number(rest);
    let (firsts, rest) = take_number(rest);
    let (targets, text) = take_number(rest);
    let mut tables = Tables::new(heap, looks, starts, firsts, targets)?;
    match tables.read(decode(heap, text).as_slice()) {
        Ok(MapSize { states, moves }) => {
            say(out, "ok");
            say(out, format_args!(" {states}"));
            say(out, format_args!(" {moves}"));
        }
        Err(fault) => say_fault(out, fault),
    }
    say_table(out, "looks", tables.looks.as_slice(), |look| look.marks);
    say_table(
        out,
        "starts",
        tables.starts.as_slice(),
        |start| u32::from(*start),
    );
    say_table(out, "firsts", tables.firsts.as_slice(), |first| *first);
    say_table(out, "targets", tables.targets.as_slice(), |target| *target);
    Ok(())
}

// Appends the refusal of a buffer of n dashes for a map, and what the buffer then holds.
fn say_refused<M: Map<L = SwitchLook>>(
    heap: Global,
    out: &mut Vec<u8>,
    map: &M,
    n: usize,
) -> Result<(), AllocError> {
    let mut bytes = vec![in heap; b'-'; n]?;
    if let Err(fault) = write_map(map, bytes.as_mut_slice()) {
        let number = fault.number();
        say(out, format_args!(" {number}"));
    }
    say(out, " ");
    let _ = out.extend_from_slice(bytes.as_slice());
    Ok(())
}

// Appends the text of a map, and what comes of a buffer that is one byte too short for it.
fn say_map<M: Map<L = SwitchLook>>(
    heap: Global,
    out: &mut Vec<u8>,
    map: &M,
) -> Result<(), AllocError> {
    let mut bytes = [0; 4096];
    let n = write_map(map, &mut bytes).unwrap_or(0);
    put_coded(out, &bytes[..n]);
    say_refused(heap, out, map, n.saturating_sub(1))
}

// `save TEXT`: the map that the text gives, written out again.
pub(crate) fn run_save(heap: Global, out: &mut Vec<u8>, text: &str) -> Result<(), AllocError> {
    let mut tables = Tables::new(heap, 4096, 4096, 4097, 15_000)?;
    match tables.read(decode(heap, text).as_slice()) {
        Ok(size) => say_map(heap, out, &tables.map(size)),
        Err(fault) => {
            say_fault(out, fault);
            Ok(())
        }
    }
}
