// The one line that is written where there is no report.
ghost use Rattle.std.specs.Prelude.{◌≡◌, ◌≤◌, length, ⊤};
ghost use Rattle.checking.specs.Outputs.{Fronted, fault_text};
ghost use Rattle.checking.specs.Told.{line_of};
ghost use Rattle.calls.specs.Faults.{refusal};
ghost use Rattle.writing.specs.Sinks.{Put};

use calls::fault::SessionFault;
use map::refusal::Refusal;
use reader::fault::TextFault;
use writing::fault::SaveFault;
use writing::line::put_fields;
use writing::save::{Text, save};
use writing::sink::Sink;

// The line of a fault: the letter of the text, the number of the refusal, the line of the text and its field.
#[derive(Clone, Copy)]
pub(crate) struct FaultLine {
    pub(crate) text: u8,
    pub(crate) number: u8,
    pub(crate) line: u32,
    pub(crate) field: u32,
}

impl FaultLine {
    // The line of a fault of a text.
    pub(crate) fn of_text(text: u8, fault: TextFault) -> FaultLine
        ensures { line_of result ≡ fault_text text fault }
    {
        FaultLine {
            text,
            number: fault.what.number(),
            line: fault.line,
            field: fault.what.field(),
        }
    }

    // Writes the line at the front of a buffer that has room for it, and answers its length.
    pub(crate) fn write(self, out: &mut [u8]) -> usize
        requires { 1024 ≤ length out.old }
        ensures { Fronted (line_of self) out.old out.new result }
    {
        save(&self, out).unwrap()
    }
}

impl From<SessionFault> for FaultLine {
    // the refusal is of neither text
    ghost from_gives = { λ fault line. line ≡ record { text = 45; number = (refusal fault).number; line = 0; field = 0 } };

    fn from(fault: SessionFault) -> FaultLine {
        FaultLine {
            text: b'-',
            number: fault.number(),
            line: 0,
            field: 0,
        }
    }
}

impl Text for FaultLine {
    ghost text = { line_of };

    ghost shown = { λ f. ⊤ };

    fn put_into<S: Sink>(&self, sink: &mut S) -> Result<(), SaveFault> {
        put_fields(
            sink,
            &[b'F', 9, self.text],
            &[u32::from(self.number), self.line, self.field],
        )
    }
}
