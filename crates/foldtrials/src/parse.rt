// Maps and tables in a case. A listed map has its states parted by `;`, each a look, a start and the targets, parted by `,`. A switch
// map begins with its bits, visible, start-on and start-off masks; after each `;` stand the four masks of a command. The two halves of
// a joint map are parted by `+`.
use joint::pair::JointMap;
use listed::table::ListedMap;
use look::Look;
use look::level::LevelLook;
use look::switch::SwitchLook;
use std::alloc::{AllocError, Global};
use switches::command::Command;
use switches::made::SwitchMap;
use switches::panel::Panel;
use text::number::read_number;

// The numbers between commas; what is no number is left out.
pub(crate) fn read_numbers(heap: Global, text: &str) -> Result<Vec<u32>, AllocError> {
    text.split(',')
        .filter_map(|field| read_number(field.as_bytes()))
        .collect(heap)
}

// A kind of look that a case writes as a number.
pub(crate) trait Numbered: Look {
    // The look of the number.
    fn of(number: u32) -> Self;
}

impl Numbered for SwitchLook {
    fn of(number: u32) -> Self {
        SwitchLook { marks: number }
    }
}

impl Numbered for LevelLook {
    // The cue times 256, and the level.
    fn of(number: u32) -> Self {
        let [_, high, low, level] = number.to_be_bytes();
        LevelLook {
            cue: u16::from_be_bytes([high, low]),
            level,
        }
    }
}

// The four tables of a listed map.
#[derive(Drop)]
pub(crate) struct Tables<L> {
    looks: Vec<L>,
    starts: Vec<u8>,
    firsts: Vec<u32>,
    targets: Vec<u32>,
}

impl<L: Numbered> Tables<L> {
    // Reads the states in turn.
    pub(crate) fn read(heap: Global, text: &str) -> Result<Self, AllocError> {
        let mut tables = Tables {
            looks: Vec::new(heap),
            starts: Vec::new(heap),
            firsts: Vec::new(heap),
            targets: Vec::new(heap),
        };
        tables.firsts.push(0)?;
        for state in text.split(';') {
            tables.add_state(&read_numbers(heap, state)?)?;
        }
        Ok(tables)
    }

    // Appends a state; fields that are no look and start are left out.
    fn add_state(&mut self, fields: &[u32]) -> Result<(), AllocError> {
        if let [look, start, targets @ ..] = fields {
            self.looks.push(L::of(*look))?;
            self.starts.push(u8::from(*start % 2 == 1))?;
            self.targets.extend_from_slice(targets)?;
            let end = u32::try_from(self.targets.len()).unwrap_or(u32::MAX);
            self.firsts.push(end)?;
        }
        Ok(())
    }

    // The map of the tables.
    pub(crate) fn map(&self) -> ListedMap<'_, L> {
        ListedMap::new(&self.looks, &self.starts, &self.firsts, &self.targets)
    }
}

// A panel of switches and its commands.
#[derive(Drop)]
pub(crate) struct Switches {
    panel: Panel,
    commands: Vec<Command>,
}

// The four masks of a panel or a command; none where there are not four numbers.
fn read_masks(heap: Global, text: &str) -> Result<Option<[u32; 4]>, AllocError> {
    let masks = read_numbers(heap, text)?;
    Ok(<[u32; 4]>::try_from(masks.as_slice()).ok())
}

// The panel of four masks.
fn panel_of([bits, visible, start_on, start_off]: [u32; 4]) -> Panel {
    Panel {
        bits,
        visible,
        start_on,
        start_off,
    }
}

// The command of four masks.
fn command_of([need_on, need_off, turn_on, turn_off]: [u32; 4]) -> Command {
    Command {
        need_on,
        need_off,
        turn_on,
        turn_off,
    }
}

impl Switches {
    // Reads the panel, and then the commands.
    pub(crate) fn read(heap: Global, text: &str) -> Result<Self, AllocError> {
        let mut parts = text.split(';');
        let masks = read_masks(heap, parts.next().unwrap_or(""))?;
        // no switches where there are not four
        let panel = panel_of(masks.unwrap_or([0; 4]));
        let mut commands = Vec::new(heap);
        for part in parts {
            if let Some(masks) = read_masks(heap, part)? {
                commands.push(command_of(masks))?;
            }
        }
        Ok(Switches { panel, commands })
    }

    // The map of the panel and its commands.
    pub(crate) fn map(&self) -> SwitchMap<'_> {
        SwitchMap::new(self.panel, &self.commands)
    }
}

// The tables of the two halves of a joint map.
#[derive(Drop)]
pub(crate) struct Halves {
    left: Tables<SwitchLook>,
    right: Tables<SwitchLook>,
}

impl Halves {
    // Reads both halves; without a `+` the right one has no state.
    pub(crate) fn read(heap: Global, text: &str) -> Result<Self, AllocError> {
        let (left, right) = text.split_once('+').unwrap_or((text, ""));
        Ok(Halves {
            left: Tables::read(heap, left)?,
            right: Tables::read(heap, right)?,
        })
    }

    // The joint of both maps.
    pub(crate) fn map(&self) -> JointMap<ListedMap<'_, SwitchLook>, ListedMap<'_, SwitchLook>> {
        JointMap::new(self.left.map(), self.right.map())
    }
}
