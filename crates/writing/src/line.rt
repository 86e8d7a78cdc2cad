// Lines put into a sink.
ghost use Rattle.std.specs.Prelude.{[], ◌∷◌, ◌++◌, map, ⊤};
ghost use Rattle.text.specs.Numbers.{written};
ghost use Rattle.text.specs.Written.{tabbed, written_line};
ghost use Rattle.text.specs.declared.line.Line.TheVariants.{Rule};
ghost use Rattle.writing.specs.Sinks.{Put};

use crate::fault::SaveFault;
use crate::number::put_number;
use crate::save::Text;
use crate::sink::Sink;
use stl::row::Row;
use text::line::Line;

// Puts a field that is a number, with byte 9 in front.
pub fn put_field<S: Sink>(sink: &mut S, n: u32) -> Result<(), SaveFault>
    ensures { Put S.room S.puts S.keeps sink.old (9 ∷ written n) result sink.new }
{
    sink.put(b"\t")?;
    put_number(sink, n)
}

// Puts a line that begins so and goes on with these numbers.
pub fn put_fields<S: Sink>(sink: &mut S, front: &[u8], numbers: &[u32]) -> Result<(), SaveFault>
    ensures { Put S.room S.puts S.keeps sink.old (front.now ++ (tabbed (map written numbers.now) ++ (10 ∷ []))) result sink.new }
{
    sink.put(front)?;
    for n in numbers {
        put_field(sink, *n)?;
    }
    sink.put(b"\n")
}

// Puts the line of a row.
fn put_row<S: Sink>(sink: &mut S, row: Row) -> Result<(), SaveFault>
    ensures { Put S.room S.puts S.keeps sink.old (written_line (Rule row) ++ (10 ∷ [])) result sink.new }
{
    match row {
        Row::True => put_fields(sink, b"R\ttrue", &[]),
        Row::Sign(k) => put_fields(sink, b"R\tsign", &[u32::from(k)]),
        Row::Not(a) => put_fields(sink, b"R\tnot", &[a]),
        Row::Or(a, b) => put_fields(sink, b"R\tor", &[a, b]),
        Row::Next(a) => put_fields(sink, b"R\tnext", &[a]),
        Row::Until(a, b) => put_fields(sink, b"R\tuntil", &[a, b]),
    }
}

impl Text for Line {
    ghost text = { λ line. written_line line ++ (10 ∷ []) };

    ghost shown = { λ line. ⊤ };

    // Puts the line and its byte 10.
    fn put_into<S: Sink>(&self, sink: &mut S) -> Result<(), SaveFault> {
        match *self {
            Line::Map(size) => put_fields(sink, b"M", &[size]),
            Line::State(look, start) => put_fields(sink, b"S", &[look, u32::from(start)]),
            Line::Target(target) => put_fields(sink, b"T", &[target]),
            Line::Rule(row) => put_row(sink, row),
        }
    }
}

// A field that is a number, with byte 9 in front.
#[derive(Clone, Copy)]
pub struct Field(pub u32);

impl Text for Field {
    ghost text = { λ f. 9 ∷ written f.0 };

    ghost shown = { λ f. ⊤ };

    fn put_into<S: Sink>(&self, sink: &mut S) -> Result<(), SaveFault> {
        put_field(sink, self.0)
    }
}

// The last field of a line, with byte 9 in front and byte 10 after it.
#[derive(Clone, Copy)]
pub struct LastField(pub u32);

impl Text for LastField {
    ghost text = { λ f. tabbed (written f.0 ∷ []) ++ (10 ∷ []) };

    ghost shown = { λ f. ⊤ };

    fn put_into<S: Sink>(&self, sink: &mut S) -> Result<(), SaveFault> {
        put_fields(sink, b"", &[self.0])
    }
}
