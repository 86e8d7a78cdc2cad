// The map that a text wrote into tables.
ghost use Rattle.std.specs.Prelude.{◌≡◌, ◌+◌, take};
ghost use Rattle.listed.specs.Tables.{tables, questions};
ghost use Rattle.map.specs.Questions.{first_no};
ghost use Rattle.maptext.specs.Lent.{tables_in};
ghost use Rattle.maptext.specs.MapTexts.{part};

use crate::progress::MapSize;
use crate::tables::MapTables;
use listed::table::ListedMap;
use look::switch::SwitchLook;

// The first n entries of a table, or all where there are fewer.
fn front<T>(table: &[T], n: usize) -> &[T]
    ensures { result.now ≡ take n table.now }
{
    table.get(..n).unwrap_or(table)
}

impl MapSize {
    // The map over the parts of the tables that a text of this size wrote. It takes them one by one, as `ListedMap::new` does:
    // tables that are only shared are enough.
    pub fn map<'a>(
        self,
        looks: &'a [SwitchLook],
        starts: &'a [u8],
        firsts: &'a [u32],
        targets: &'a [u32],
    ) -> ListedMap<'a, SwitchLook>
        ensures looks { result.looks.now ≡ take self.states looks.now }
        ensures starts { result.starts.now ≡ take self.states starts.now }
        ensures firsts { result.firsts.now ≡ take (self.states + 1) firsts.now }
        ensures targets { result.targets.now ≡ take self.moves targets.now }
        ensures fault { result.fault ≡ first_no (questions (part self (tables looks.now starts.now firsts.now targets.now))) }
    {
        let n = self.states as usize;
        ListedMap::new(
            front(looks, n),
            front(starts, n),
            front(firsts, n + 1),
            front(targets, self.moves as usize),
        )
    }
}

impl MapTables<'_> {
    // The map over the parts that a text of this size wrote.
    pub fn map(&self, size: MapSize) -> ListedMap<'_, SwitchLook>
        ensures looks { result.looks.now ≡ take size.states self.now.looks.now }
        ensures starts { result.starts.now ≡ take size.states self.now.starts.now }
        ensures firsts { result.firsts.now ≡ take (size.states + 1) self.now.firsts.now }
        ensures targets { result.targets.now ≡ take size.moves self.now.targets.now }
        ensures fault { result.fault ≡ first_no (questions (part size (tables_in self.now))) }
    {
        size.map(self.looks, self.starts, self.firsts, self.targets)
    }
}
