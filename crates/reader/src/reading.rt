// A text read line by line, up to its first fault.
ghost use Rattle.std.specs.Prelude.{◌≡◌, ℕ, ◌+◌, length, OnOk};
ghost use Rattle.reader.specs.Readings.{Taken, taken, taken_by, text_read, answer};
ghost use Rattle.reader.specs.Texts.{text_lines};
ghost use Rattle.text.specs.declared.line.Line.{Line};

use crate::fault::{TextFault, Trouble};
use crate::next::Lines;
use text::line::{Line, LineFault};

// What the lines of one kind of text are told to, one after another.
pub trait Reader {
    // what a line acts on
    ghost Held: { Type 0 };

    ghost held: { Self → Held };

    // what no line changes
    ghost Fixed: { Type 0 };

    ghost fixed: { Self → Fixed };

    // what a line does
    ghost step: { Fixed → Held → Line → Taken Held };

    // what stays true while lines are taken
    ghost sound: { Fixed → Held → Type 0 };

    // that so many lines more may be taken
    ghost can_take: { Held → ℕ → Type 0 };

    // Takes one line, or tells why not.
    fn take(&mut self, line: Line) -> Result<(), Trouble>
        requires { (n : ℕ) × can_take (held self.old) (n + 1) }
        ensures fixed { fixed self.new ≡ fixed self.old }
        ensures taken { taken result (held self.new) ≡ step (fixed self.old) (held self.old) line }
        ensures sound { sound (fixed self.old) (held self.old) → sound (fixed self.old) (held self.new) }
        ensures goes_on { OnOk result ((n : ℕ) → can_take (held self.old) (n + 1) → can_take (held self.new) n) };
}

// Takes what a line says, where it says anything.
fn take_said<R: Reader>(said: Result<Line, LineFault>, reader: &mut R) -> Result<(), Trouble>
    requires { (n : ℕ) × R.can_take (R.held reader.old) (n + 1) }
    ensures fixed { R.fixed reader.new ≡ R.fixed reader.old }
    ensures taken { taken result (R.held reader.new) ≡ taken_by (R.step (R.fixed reader.old)) (R.held reader.old) said }
    ensures sound { R.sound (R.fixed reader.old) (R.held reader.old) → R.sound (R.fixed reader.old) (R.held reader.new) }
    ensures goes_on { OnOk result ((n : ℕ) → R.can_take (R.held reader.old) (n + 1) → R.can_take (R.held reader.new) n) }
{
    reader.take(said?)
}

// Takes the lines of a text in turn, up to the first fault. Answers the number of lines and one more.
pub fn read_text<R: Reader>(text: &[u8], reader: &mut R) -> Result<u32, TextFault>
    requires { R.can_take (R.held reader.old) 60000 }
    ensures fixed { R.fixed reader.new ≡ R.fixed reader.old }
    ensures answer { result ≡ answer (length (text_lines text.now) + 1) (text_read (R.step (R.fixed reader.old)) (R.held reader.old) text.now).fault }
    ensures left { R.held reader.new ≡ (text_read (R.step (R.fixed reader.old)) (R.held reader.old) text.now).left }
    ensures sound { R.sound (R.fixed reader.old) (R.held reader.old) → R.sound (R.fixed reader.old) (R.held reader.new) }
{
    if text.len() > 60_000 {
        return Err(TextFault {
            what: Trouble::TooLong,
            line: 0,
        });
    }
    // counted by hand: the number after the last line is the answer
    let mut line = 1;
    for said in Lines(text) {
        take_said(said, reader).map_err(|what| TextFault { what, line })?;
        line += 1;
    }
    Ok(line)
}
