// The lines of a report, put into a sink.
ghost use Rattle.std.specs.Prelude.{◌≡◌, ◌≤◌, [], ◌∷◌, ◌++◌, length, ⊤};
ghost use Rattle.report.specs.Texts.{word, found_line, report_text};
ghost use Rattle.writing.specs.Sinks.{Put};

use crate::found::Found;
use writing::fault::SaveFault;
use writing::number::put_number;
use writing::save::Text;
use writing::sink::Sink;

// The word of a verdict, with byte 9 before it and after it.
fn word_of(yes: bool) -> &'static [u8]
    ensures { result.now ≡ 9 ∷ (word yes ++ (9 ∷ [])) }
{
    if yes { b"\tyes\t" } else { b"\tno\t" }
}

// Puts the line of row r.
fn put_found<S: Sink>(sink: &mut S, r: u32, found: Found) -> Result<(), SaveFault>
    ensures { Put S.room S.puts S.keeps sink.old (found_line r found) result sink.new }
{
    sink.put(b"V\t")?;
    put_number(sink, r)?;
    sink.put(word_of(found.yes))?;
    put_number(sink, found.reach)?;
    sink.put(b"\n")
}

// The results of rows 0, 1, 2, .., put as a report.
#[derive(Drop)]
pub(crate) struct Report<'a> {
    pub(crate) finds: &'a [Found],
    ghost few: { length finds.now ≤ 64 },
}

impl<'a> Text for Report<'a> {
    ghost text = { λ t. report_text t.finds.now };

    ghost shown = { λ t. ⊤ };

    fn put_into<S: Sink>(&self, sink: &mut S) -> Result<(), SaveFault> {
        for (r, found) in self.finds.iter().enumerate() {
            put_found(sink, r as u32, *found)?;
        }
        Ok(())
    }
}
