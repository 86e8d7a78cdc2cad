// Reading a rule text.
ghost use Rattle.std.specs.Prelude.{◌≡◌, length, ⊤};
ghost use Rattle.calls.specs.Answers.{State};
ghost use Rattle.map.specs.Meaning.{structure};
ghost use Rattle.ruletext.specs.Readers.{Fixed};
ghost use Rattle.ruletext.specs.RuleTexts.{rule_step, rule_read, rule_answer, Keeps};
ghost use Rattle.session.specs.Sessions.{state};
ghost use Rattle.calls.specs.Histories.{Kept};

use look::Look;
use map::Map;
use reader::fault::{TextFault, Trouble};
use reader::place::{Place, stand};
use reader::reading::{Reader, read_text};
use session::held::Session;
use text::line::Line;

// What reads a rule text: the session that takes its rows, on a map, lent a sheet.
#[derive(Drop)]
struct RuleReader<'a, M> {
    session: &'a mut Session,
    map: &'a M,
    sheet: &'a [u64],
}

impl<'a, M: Map> Reader for RuleReader<'a, M> {
    ghost Held = { State };

    ghost held = { λ x. state x.session.now };

    ghost Fixed = { Fixed };

    ghost fixed = { λ x. record { on = structure M.L.Look.sign (M.meaning x.map.now); sheet = x.sheet.now; place = x.session.ghost_name } };

    ghost step = { λ f. rule_step f.on (length f.sheet) };

    ghost sound = { λ f st. Kept f.on st f.sheet };

    ghost can_take = { λ st n. ⊤ };

    // Takes one line: may it stand here, and does the session take its row?
    fn take(&mut self, line: Line) -> Result<(), Trouble> {
        stand(Place::InRules, line).ok_or(Trouble::OutOfPlace)?;
        if let Line::Rule(row) = line {
            self.session.add(self.map, self.sheet, row)?;
        }
        Ok(())
    }
}

// Adds the rows of a rule text to a session, each as its line is read, up to the first fault. A session whose labels are the
// logic's stays so.
pub fn read_rules<M: Map>(
    text: &[u8],
    session: &mut Session,
    map: &M,
    sheet: &[u64],
) -> Result<(), TextFault>
    ensures answer { result ≡ rule_answer (rule_read (structure M.L.Look.sign (M.meaning map.now)) (length sheet.now) (state session.old) text.now).fault }
    ensures kept { state session.new ≡ (rule_read (structure M.L.Look.sign (M.meaning map.now)) (length sheet.now) (state session.old) text.now).left }
    ensures keeps { Keeps (structure M.L.Look.sign (M.meaning map.now)) sheet.now (state session.old) (state session.new) }
{
    let mut reader = RuleReader {
        session,
        map,
        sheet,
    };
    read_text(text, &mut reader)?;
    Ok(())
}
