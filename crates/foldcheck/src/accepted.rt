// Accepted folds.
ghost use Rattle.std.specs.Prelude.{◌≡◌};
ghost use Rattle.std.specs.List.{slice_get};

// A class table that was checked against two maps.
#[derive(Drop)]
pub struct Accepted<'a> {
    pub(crate) table: &'a [u32],
}

impl<'a> Accepted<'a> {
    // The class of each state.
    pub fn classes(&self) -> &'a [u32]
        ensures { result.now ≡ self.now.table.now }
    {
        self.table
    }

    // The class of s, where s has one.
    pub fn class(&self, s: u32) -> Option<u32>
        ensures { result ≡ slice_get self.now.table.now s }
    {
        self.classes().get(s as usize).copied()
    }
}
