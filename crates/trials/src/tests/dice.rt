// Numbers that look thrown, and tables, commands and rows made from them.
use listed::table::ListedMap;
use look::switch::SwitchLook;
use std::alloc::{AllocError, Global};
use std::array;
use stl::row::Row;
use switches::command::Command;
use switches::made::SwitchMap;
use switches::panel::Panel;

// A seed that each throw replaces.
#[derive(Clone, Copy)]
pub struct Dice {
    pub seed: u64,
}

impl Dice {
    // A number below n; 0 where n is 0.
    pub(crate) fn below(&mut self, n: u32) -> u32 {
        let seed = self
            .seed
            .wrapping_mul(6364136223846793005)
            .wrapping_add(1442695040888963407);
        self.seed = seed;
        let thrown = ((seed >> 32) & 0xffff_ffff) as u32;
        if n == 0 { 0 } else { thrown % n }
    }
}

// The tables of a listed map of at most 6 states.
#[derive(Drop)]
pub struct Tables {
    looks: Vec<SwitchLook>,
    starts: Vec<u8>,
    firsts: Vec<u32>,
    targets: Vec<u32>,
}

// A start byte; it is 0 as often as not.
fn thrown_start(dice: &mut Dice) -> u8 {
    match dice.below(6) {
        0 => 1,
        1 => 128,
        2 => 255,
        _ => 0,
    }
}

// Tables of 1 to `most` states, 6 at most, each with up to 3 targets. There is a throw for each of six states, whatever the size.
pub(crate) fn thrown_tables(
    heap: Global,
    dice: &mut Dice,
    most: u32,
) -> Result<Tables, AllocError> {
    let most = most.min(6);
    let size = dice.below(most).max(dice.below(most)).saturating_add(1);
    let mut looks = Vec::new(heap);
    let mut starts = Vec::new(heap);
    for _ in 0..6 {
        let marks = dice.below(8);
        looks.push(SwitchLook { marks })?;
        starts.push(thrown_start(dice))?;
    }
    looks.truncate(size as usize);
    starts.truncate(size as usize);
    let (firsts, targets) = lists(heap, dice, size)?;
    Ok(Tables {
        looks,
        starts,
        firsts,
        targets,
    })
}

// Up to 3 targets for each state, or up to 2 or 1, and where the list of each begins.
fn lists(heap: Global, dice: &mut Dice, size: u32) -> Result<(Vec<u32>, Vec<u32>), AllocError> {
    let mut firsts = vec![in heap; 0; 1]?;
    let mut targets = Vec::new(heap);
    let bound = dice.below(3).saturating_add(2);
    for s in 0..6 {
        for _ in 0..dice.below(bound) {
            let target = dice.below(size);
            if s < size {
                targets.push(target)?;
            }
        }
        if s < size {
            firsts.push((targets.len() & 0xffff) as u32)?;
        }
    }
    Ok((firsts, targets))
}

impl Tables {
    // The listed map of the tables.
    pub(crate) fn map(&self) -> ListedMap<'_, SwitchLook> {
        ListedMap::new(
            self.looks.as_slice(),
            self.starts.as_slice(),
            self.firsts.as_slice(),
            self.targets.as_slice(),
        )
    }
}

// A panel and up to 4 commands.
#[derive(Drop)]
pub struct Board {
    panel: Panel,
    commands: Vec<Command>,
}

// A command over switches whose settings are the numbers below n.
fn thrown_command(dice: &mut Dice, n: u32) -> Command {
    let turn_on = dice.below(n);
    let turn_off = dice.below(n) & !turn_on;
    Command {
        need_on: dice.below(n) & dice.below(n),
        need_off: dice.below(n) & dice.below(n),
        turn_on,
        turn_off,
    }
}

// A board of 1 to `most` switches.
pub(crate) fn thrown_board(heap: Global, dice: &mut Dice, most: u32) -> Result<Board, AllocError> {
    let bits = dice.below(most).saturating_add(1);
    let n = match bits {
        1 => 2,
        2 => 4,
        _ => 8,
    };
    // the first one thrown is left out
    let _ = thrown_command(dice, n);
    let mut commands = Vec::new(heap);
    for _ in 0..4 {
        commands.push(thrown_command(dice, n))?;
    }
    let panel = Panel {
        bits,
        visible: dice.below(n) | dice.below(n),
        start_on: dice.below(n) & dice.below(n),
        start_off: dice.below(n) & dice.below(n),
    };
    commands.truncate(dice.below(5) as usize);
    Ok(Board { panel, commands })
}

impl Board {
    // The switch map of the board.
    pub(crate) fn map(&self) -> SwitchMap<'_> {
        SwitchMap::new(self.panel, self.commands.as_slice())
    }
}

// Row number r: of any kind, over any earlier rows.
pub(crate) fn thrown_row(dice: &mut Dice, r: u32) -> Row {
    let (a, b) = (dice.below(r), dice.below(r));
    if r == 0 {
        return Row::True;
    }
    match dice.below(8) {
        0 => Row::Sign(0),
        1 => Row::Sign(1),
        2 => Row::Not(a),
        3 => Row::Or(a, b),
        4 => Row::Next(a),
        5 => Row::Sign(2),
        _ => Row::Until(a, b),
    }
}

// Sixteen rows of all kinds.
pub(crate) fn thrown_rows(dice: &mut Dice) -> [Row; 16] {
    array::from_fn(|r| thrown_row(dice, r as u32))
}
