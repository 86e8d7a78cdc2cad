// The worked example, with the facts that are proved of it, and the cases that are run and compared.
#![tactic(auto)]

ghost use Rattle.std.specs.Prelude.{◌≡◌};
ghost use Rattle.listed.specs.Tables.{questions};
ghost use Rattle.map.specs.Questions.{first_no};
ghost use Rattle.rig.specs.Worked.{WorkedFacts, tables_of};

use listed::table::ListedMap;
use look::level::LevelLook;
use look::switch::SwitchLook;
use stl::row::Row;
use switches::command::Command;
use switches::panel::Panel;

#[cfg(test)]
mod tests;

// The four-state map, as tables, with its rows and their label words; three level looks; two switches with a command.
#[derive(Clone, Copy)]
pub struct Rig {
    pub looks: [SwitchLook; 4],
    pub starts: [u8; 4],
    pub firsts: [u32; 5],
    pub targets: [u32; 4],
    pub rows: [Row; 8],
    pub words: [u64; 4],
    pub levels: [LevelLook; 3],
    pub panel: Panel,
    pub commands: [Command; 1],
}

impl Rig {
    // The four-state map.
    pub fn map(&self) -> ListedMap<'_, SwitchLook>
        ensures looks { result.looks.now ≡ self.now.looks }
        ensures starts { result.starts.now ≡ self.now.starts }
        ensures firsts { result.firsts.now ≡ self.now.firsts }
        ensures targets { result.targets.now ≡ self.now.targets }
        ensures fault { result.fault ≡ first_no (questions (tables_of self.now)) }
    {
        ListedMap::new(&self.looks, &self.starts, &self.firsts, &self.targets)
    }
}

// The worked example; its promise is what the definitions say of it.
pub fn worked_example() -> Rig
    ensures { WorkedFacts result }
{
    Rig {
        looks: [
            SwitchLook { marks: 0 },
            SwitchLook { marks: 2 },
            SwitchLook { marks: 3 },
            SwitchLook { marks: 1 },
        ],
        starts: [1, 0, 0, 0],
        firsts: [0, 1, 3, 4, 4],
        targets: [1, 2, 3, 0],
        rows: [
            Row::True,
            Row::Sign(0),
            Row::Sign(1),
            Row::Not(1),
            Row::Or(3, 2),
            Row::Not(4),
            Row::Until(0, 5),
            Row::Next(1),
        ],
        words: [89, 221, 87, 99],
        levels: [
            LevelLook { cue: 1, level: 32 },
            LevelLook { cue: 2, level: 47 },
            LevelLook { cue: 3, level: 48 },
        ],
        panel: Panel {
            bits: 2,
            visible: 3,
            start_on: 0,
            start_off: 3,
        },
        commands: [Command {
            need_on: 0,
            need_off: 1,
            turn_on: 1,
            turn_off: 2,
        }],
    }
}
