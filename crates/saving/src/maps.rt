// The text of a map.
ghost use Rattle.std.specs.Prelude.{◌≡◌, ◌^◌, ◌<◌, map as list_map, length, OnOk, slice_index};
ghost use Rattle.reader.specs.Texts.{written_text};
ghost use Rattle.saving.specs.ReadBack.{MapReadsBack, LooksFit};
ghost use Rattle.saving.specs.Texts.{ended, marks_of, start_of, lines_of, first_states, map_text};
ghost use Rattle.text.specs.declared.line.Line.TheVariants as line;
ghost use Rattle.writing.specs.Saves.{Saved};
ghost use Rattle.writing.specs.Sinks.{Put};

use look::switch::SwitchLook;
use map::Map;
use text::line::Line;
use writing::fault::SaveFault;
use writing::save::{Text, save};
use writing::sink::Sink;

// The marks of a look, none where there is no look.
fn marks_of(look: Option<SwitchLook>) -> u32
    ensures is { result ≡ marks_of look }
    ensures fits { result < 2 ^ 32 }
{
    look.map_or(0, |look| look.marks)
}

// 1 for a start, else 0.
fn start_of(start: bool) -> u8
    ensures { result ≡ start_of start }
{
    u8::from(start)
}

// The line of s.
fn state_line<M: Map<L = SwitchLook>>(map: &M, s: u32) -> Line
    ensures is { result ≡ line.State (marks_of ((M.meaning map.now).look s)) (start_of ((M.meaning map.now).start s)) }
    ensures fits { marks_of ((M.meaning map.now).look s) < 2 ^ 32 }
{
    Line::State(marks_of(map.look_of(s)), start_of(map.is_start(s)))
}

// Puts the line of entry k of the list of s.
fn put_target<M: Map<L = SwitchLook>, S: Sink>(
    sink: &mut S,
    map: &M,
    s: u32,
    k: u32,
) -> Result<(), SaveFault>
    requires { k < length ((M.meaning map.now).list s) }
    ensures { Put S.room S.puts S.keeps sink.old (ended (line.Target (slice_index ((M.meaning map.now).list s) k))) result sink.new }
{
    Line::Target(map.entry(s, k).unwrap()).put_into(sink)
}

// Puts a line for each entry of the list of s.
fn put_targets<M: Map<L = SwitchLook>, S: Sink>(
    sink: &mut S,
    map: &M,
    s: u32,
) -> Result<(), SaveFault>
    ensures { Put S.room S.puts S.keeps sink.old (written_text (list_map line.Target ((M.meaning map.now).list s))) result sink.new }
{
    for k in 0..map.list_len(s) {
        put_target(sink, map, s, k)?;
    }
    Ok(())
}

// Puts the lines of s: its own, and those of its targets.
fn put_state<M: Map<L = SwitchLook>, S: Sink>(
    sink: &mut S,
    map: &M,
    s: u32,
) -> Result<(), SaveFault>
    ensures put { Put S.room S.puts S.keeps sink.old (written_text (lines_of (M.meaning map.now) s)) result sink.new }
    ensures fits { marks_of ((M.meaning map.now).look s) < 2 ^ 32 }
{
    state_line(map, s).put_into(sink)?;
    put_targets(sink, map, s)
}

// Puts the lines of every state.
fn put_states<M: Map<L = SwitchLook>, S: Sink>(sink: &mut S, map: &M) -> Result<(), SaveFault>
    ensures fit { OnOk result (LooksFit (M.meaning map.now)) }
    ensures put { Put S.room S.puts S.keeps sink.old (written_text (first_states (M.meaning map.now) (M.meaning map.now).size)) result sink.new }
{
    for s in 0..map.size() {
        put_state(sink, map, s)?;
    }
    Ok(())
}

// A map, put as its text.
#[derive(Drop)]
struct MapText<'a, M>(&'a M);

impl<'a, M: Map<L = SwitchLook>> Text for MapText<'a, M> {
    ghost text = { λ t. map_text (M.meaning t.0.now) };

    ghost shown = { λ t. LooksFit (M.meaning t.0.now) };

    fn put_into<S: Sink>(&self, sink: &mut S) -> Result<(), SaveFault> {
        Line::Map(self.0.size()).put_into(sink)?;
        put_states(sink, self.0)
    }
}

// Saves the text of a map whose looks are switch looks: its length, or no room and nothing written. The text reads back as the map.
pub fn write_map<M: Map<L = SwitchLook>>(map: &M, out: &mut [u8]) -> Result<usize, SaveFault>
    ensures saved { Saved (map_text (M.meaning map.now)) out.old out.new result }
    ensures reads_back { MapReadsBack (M.meaning map.now) }
    ensures looks_fit { OnOk result (LooksFit (M.meaning map.now)) }
{
    save(&MapText(map), out)
}
