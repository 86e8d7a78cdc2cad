// The text of a rule list.
ghost use Rattle.std.specs.Prelude.{◌<◌, length, take, slice_index_or, ⊤};
ghost use Rattle.saving.specs.ReadBack.{RulesReadBack};
ghost use Rattle.saving.specs.Texts.{ended, rule_text};
ghost use Rattle.stl.specs.declared.row.Row.TheVariants as row;
ghost use Rattle.text.specs.declared.line.Line.TheVariants as line;
ghost use Rattle.writing.specs.Saves.{Saved};
ghost use Rattle.writing.specs.Sinks.{Put};

use rules::list::RuleList;
use text::line::Line;
use writing::fault::SaveFault;
use writing::save::{Text, save};
use writing::sink::Sink;

// Puts the line of row r.
fn put_row<S: Sink>(sink: &mut S, rules: &RuleList, r: u32) -> Result<(), SaveFault>
    requires { r < length (take rules.now.len rules.now.rows) }
    ensures { Put S.room S.puts S.keeps sink.old (ended (line.Rule (slice_index_or (take rules.now.len rules.now.rows) r row.True))) result sink.new }
{
    Line::Rule(rules.row(r).unwrap()).put_into(sink)
}

// The rows of a rule list, put as a text.
#[derive(Drop)]
struct RuleText<'a>(&'a RuleList);

impl<'a> Text for RuleText<'a> {
    ghost text = { λ t. rule_text (take t.0.now.len t.0.now.rows) };

    ghost shown = { λ t. ⊤ };

    fn put_into<S: Sink>(&self, sink: &mut S) -> Result<(), SaveFault> {
        for r in 0..self.0.len() {
            put_row(sink, self.0, r)?;
        }
        Ok(())
    }
}

// Saves the text of the rows of a rule list: its length, or no room and nothing written. The text reads back as the rows.
pub fn write_rules(rules: &RuleList, out: &mut [u8]) -> Result<usize, SaveFault>
    ensures saved { Saved (rule_text (take rules.now.len rules.now.rows)) out.old out.new result }
    ensures reads_back { RulesReadBack (take rules.now.len rules.now.rows) }
{
    save(&RuleText(rules), out)
}
