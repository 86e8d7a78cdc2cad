// One line of a map text.
ghost use Rattle.std.specs.Prelude.{◌≡◌, ◌+◌, ◌≤◌, true};
ghost use Rattle.maptext.specs.Readers.{reading_of, Names, names};
ghost use Rattle.maptext.specs.MapTexts.{Within};
ghost use Rattle.maptext.specs.Steps.{Reading, space, does, step};

use crate::progress::Progress;
use crate::tables::MapTables;
use look::switch::SwitchLook;
use reader::fault::Trouble;
use reader::place::{Place, stand};
use reader::reading::Reader;
use text::line::Line;

// What reads a map text: how far it came, and the tables that it writes.
#[derive(Drop)]
pub(crate) struct MapReader<'a, 'b> {
    pub(crate) at: Progress,
    pub(crate) tables: &'a mut MapTables<'b>,
}

impl<'a, 'b> MapReader<'a, 'b> {
    // Whether the tables have space for a line: for an M line, all but the targets.
    fn has_space(&self, line: Line) -> bool
        ensures { result ≡ space (reading_of self.now) line }
    {
        let MapTables {
            looks,
            starts,
            firsts,
            targets,
        } = &*self.tables;
        match line {
            Line::Map(size) => {
                let n = size as usize;
                n <= looks.len() && n <= starts.len() && n < firsts.len()
            }
            Line::State(_, _) => {
                let s = self.at.states as usize;
                s < looks.len() && s < starts.len() && s < firsts.len()
            }
            Line::Target(_) => (self.at.moves as usize) < targets.len(),
            Line::Rule(_) => true,
        }
    }

    // Writes what a line says into the tables, and counts it.
    fn write(&mut self, line: Line)
        requires room { space (reading_of self.old) line ≡ true }
        requires few { self.old.at.states + self.old.at.moves ≤ 60000 }
        ensures written { reading_of self.new ≡ does (reading_of self.old) line }
        ensures same { names self.new ≡ names self.old }
    {
        match line {
            Line::Map(size) => {
                self.at.place = Place::AfterMap;
                self.at.size = size;
            }
            Line::State(look, start) => {
                let s = self.at.states as usize;
                self.tables.looks[s] = SwitchLook { marks: look };
                self.tables.starts[s] = start;
                self.tables.firsts[s] = self.at.moves;
                self.at.place = Place::InStates;
                self.at.states += 1;
            }
            Line::Target(target) => {
                self.tables.targets[self.at.moves as usize] = target;
                self.at.moves += 1;
            }
            Line::Rule(_) => {}
        }
    }
}

impl<'a, 'b> Reader for MapReader<'a, 'b> {
    ghost Held = { Reading };

    ghost held = { reading_of };

    ghost Fixed = { Names };

    ghost fixed = { names };

    ghost step = { λ fixed. step };

    ghost sound = { λ fixed. Within };

    ghost can_take = { λ x n. x.at.states + x.at.moves + n ≤ 60000 };

    // Takes one line: may it stand here, and have the tables space for it?
    fn take(&mut self, line: Line) -> Result<(), Trouble> {
        stand(self.at.place, line).ok_or(Trouble::OutOfPlace)?;
        if !self.has_space(line) {
            return Err(Trouble::NoSpace);
        }
        self.write(line);
        Ok(())
    }
}
