// A switch map: a panel and commands whose masks are as required.
ghost use Rattle.std.specs.Prelude.{◌≡◌, ◌≤◌, true, length, None};
ghost use Rattle.map.specs.Questions.{first_no};
ghost use Rattle.switches.specs.Switched.{right_masks, questions};

use crate::command::Command;
use crate::fault::SwitchFault;
use crate::judge::switch_fault;
use crate::panel::Panel;
use map::made::Made;

// What makes no map is not kept: such a map has no switches and no commands, has size 0, and tells its fault.
#[derive(Drop)]
pub struct SwitchMap<'a> {
    pub(crate) panel: Panel,
    pub(crate) commands: &'a [Command],
    pub(crate) fault: Option<SwitchFault>,
    // at most 12 switches
    ghost sized: { panel.bits ≤ 12 },
    // at most 32 commands
    ghost few: { length commands.now ≤ 32 },
    // no mask has a bit that is no switch, and no command turns a switch both on and off
    ghost masked: { right_masks panel commands.now ≡ true },
}

impl<'a> SwitchMap<'a> {
    // The map of the panel and the commands, whatever they hold.
    pub fn new(panel: Panel, commands: &'a [Command]) -> Self
        ensures fault { result.fault ≡ first_no (questions panel commands.now) }
        ensures panel { result.fault ≡ None → result.panel ≡ panel }
        ensures commands { result.fault ≡ None → result.commands.now ≡ commands.now }
    {
        let fault = switch_fault(panel, commands);
        if fault.is_none() {
            SwitchMap {
                panel,
                commands,
                fault,
            }
        } else {
            let panel = Panel {
                bits: 0,
                visible: 0,
                start_on: 0,
                start_off: 0,
            };
            SwitchMap {
                panel,
                commands: &commands[0..0],
                fault,
            }
        }
    }
}

impl<'a> Made for SwitchMap<'a> {
    type Fault = SwitchFault;

    ghost why = { λ m. m.fault };

    fn fault(&self) -> Option<SwitchFault> {
        self.fault
    }
}
