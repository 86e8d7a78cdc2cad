// Reading a map text.
ghost use Rattle.std.specs.Prelude.{◌≡◌, ◌<◌, ◌≤◌, length};
ghost use Rattle.maptext.specs.Lent.{tables_in, places};
ghost use Rattle.maptext.specs.MapTexts.{target_line as line_of_target, fault_line, complete, closed, made_of, map_read};
ghost use Rattle.maptext.specs.Steps.{reading};
ghost use Rattle.reader.specs.Texts.{text_lines};

use crate::progress::{MapSize, Progress};
use crate::step::MapReader;
use crate::tables::MapTables;
use listed::fault::ListedFault;
use map::made::Made;
use reader::fault::{TextFault, Trouble};
use reader::next::Lines;
use reader::place::Place;
use reader::reading::read_text;
use text::line::Line;

// The number of T line k of a text, counted from 0.
fn target_line(text: &[u8], k: u32) -> u32
    requires { length text.now ≤ 60000 }
    ensures { result ≡ line_of_target 1 k (text_lines text.now) }
{
    // counted by hand: where there is no such line, the number after the last line is the answer
    let mut line = 1;
    let mut left = k;
    for said in Lines(text) {
        if let Ok(Line::Target(_)) = said {
            if left == 0 {
                return line;
            }
            left -= 1;
        }
        line += 1;
    }
    line
}

// The line of a fault of the map.
fn line_of_fault(text: &[u8], fault: ListedFault) -> u32
    requires { length text.now ≤ 60000 }
    ensures { result ≡ fault_line (text_lines text.now) fault }
{
    match fault {
        ListedFault::WrongTarget(k) => target_line(text, k),
        ListedFault::TooManyLooks | ListedFault::WrongLengths | ListedFault::WrongFirst(_) => 1,
    }
}

// Whether there was an M line, and as many S lines as it says.
fn is_complete(at: Progress) -> bool
    ensures { result ≡ complete at }
{
    at.place != Place::BeforeMap && at.states == at.size
}

// Writes the last first, and makes the map.
fn close(text: &[u8], at: Progress, tables: &mut MapTables<'_>) -> Result<MapSize, TextFault>
    requires few { length text.now ≤ 60000 }
    requires room { at.states < length tables.old.firsts.now }
    ensures answer { result ≡ (made_of (text_lines text.now) (reading at (tables_in tables.old))).answer }
    ensures held { tables_in tables.new ≡ closed (reading at (tables_in tables.old)) }
    ensures same { places tables.new ≡ places tables.old }
{
    tables.firsts[at.states as usize] = at.moves;
    let size = MapSize {
        states: at.states,
        moves: at.moves,
    };
    match tables.map(size).fault() {
        None => Ok(size),
        Some(fault) => Err(TextFault {
            what: fault.into(),
            line: line_of_fault(text, fault),
        }),
    }
}

// Reads a map text into the tables. Answers how many states and moves it has; or the first fault, with what was written before it.
pub fn read_map(text: &[u8], tables: &mut MapTables<'_>) -> Result<MapSize, TextFault>
    ensures answer { result ≡ (map_read text.now (tables_in tables.old)).answer }
    ensures held { tables_in tables.new ≡ (map_read text.now (tables_in tables.old)).held }
    ensures same { places tables.new ≡ places tables.old }
{
    let mut reader = MapReader {
        at: Progress {
            place: Place::BeforeMap,
            size: 0,
            states: 0,
            moves: 0,
        },
        tables,
    };
    let line = read_text(text, &mut reader)?;
    if !is_complete(reader.at) {
        return Err(TextFault {
            what: Trouble::Incomplete,
            line,
        });
    }
    close(text, reader.at, reader.tables)
}
