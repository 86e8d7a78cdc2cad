// The worked fold: a five-state map onto the four-state map of the worked example, with the facts that are proved of it.
#![tactic(auto)]

ghost use Rattle.foldrig.specs.Folded.{FoldFacts};

use look::switch::SwitchLook;

// The four-state map with state 4 added, which looks and moves as state 1 does, and the class of each state in the four-state map;
// then what makes of it no fold: its moves without that from 4 to 3, and starts with 4 among them.
#[derive(Clone, Copy)]
pub struct FiveStates {
    pub looks: [SwitchLook; 5],
    pub starts: [u8; 5],
    pub firsts: [u32; 6],
    pub targets: [u32; 7],
    pub classes: [u32; 5],
    pub fewer_firsts: [u32; 6],
    pub fewer_targets: [u32; 6],
    pub more_starts: [u8; 5],
}

// The five-state map, its classes, and what makes of it no fold.
pub fn five_states() -> FiveStates
    ensures { FoldFacts result }
{
    FiveStates {
        looks: [
            SwitchLook { marks: 0 },
            SwitchLook { marks: 2 },
            SwitchLook { marks: 3 },
            SwitchLook { marks: 1 },
            SwitchLook { marks: 2 },
        ],
        starts: [1, 0, 0, 0, 0],
        firsts: [0, 2, 4, 5, 5, 7],
        targets: [1, 4, 2, 3, 0, 2, 3],
        classes: [0, 1, 2, 3, 1],
        fewer_firsts: [0, 2, 4, 5, 5, 6],
        fewer_targets: [1, 4, 2, 3, 0, 2],
        more_starts: [1, 0, 0, 0, 1],
    }
}
