// What a session keeps.
ghost use Rattle.std.specs.Prelude.{◌≤◌};

use rules::list::RuleList;

// Its rule list, and how many of the rows are marked.
#[derive(Drop)]
pub struct Session {
    pub(crate) rules: RuleList,
    pub(crate) marked: u32,
    ghost within: { marked ≤ rules.len },
}
