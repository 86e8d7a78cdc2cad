// Calls on two sessions side by side: one on the full map, one on the folded map.
ghost use Rattle.std.specs.Prelude.{◌≡◌, ◌≤◌, length, OnOk};
ghost use Rattle.calls.specs.Claims.{moment};
ghost use Rattle.calls.specs.Effects.{Gives};
ghost use Rattle.fold.specs.Lists.{kept_by, lent_to, SameLent, sides, full_said, folded_said, Told, ToldAll};
ghost use Rattle.map.specs.Meaning.{structure};
ghost use Rattle.sharing.specs.Called.{AfterBoth};
ghost use Rattle.sharing.specs.Claims.{FoldsShare};
ghost use Rattle.sharing.specs.Played.{AfterAll};
ghost use Rattle.sharing.specs.Through.{asked_through};

use crate::ask::class_or_none;
use calls::call::{Answer, Call};
use foldcheck::accepted::Accepted;
use look::Look;
use map::Map;
use session::held::Session;
use thiserror::Error;

// A session on its map, with the tables that are lent to its calls. A struct of the fold and both sides was tried too, but its caller
// learns nothing of a reference that lies two structs deep.
#[derive(Drop)]
pub struct Side<'a, M> {
    pub map: &'a M,
    pub session: &'a mut Session,
    pub sheet: &'a mut [u64],
    pub work: &'a mut [u32],
    pub run: &'a mut [u32],
}

impl<'a, M: Map> Side<'a, M> {
    // Makes the call, and gives its answer.
    fn perform(&mut self, asked: Call) -> Answer
        ensures gives { Gives (structure M.L.Look.sign (M.Map.meaning self.old.map.now)) (kept_by self.old) (lent_to self.old) asked result (kept_by self.new) (lent_to self.new) }
        ensures same { SameLent self.old self.new }
    {
        self.session
            .perform(self.map, self.sheet, self.work, self.run, asked)
    }
}

// What the two sessions answered.
#[derive(Clone, Copy, PartialEq, Eq, Debug)]
pub struct Pair {
    pub full: Answer,
    pub folded: Answer,
}

// The call as it goes to the folded session: a state as its class, a missing one as a missing one.
fn through(fold: &Accepted<'_>, asked: Call) -> Call
    ensures { result ≡ asked_through fold.now.table.now asked }
{
    match asked {
        Call::Label(s, r) => Call::Label(class_or_none(fold, s), r),
        Call::Witness(s, r) => Call::Witness(class_or_none(fold, s), r),
        other => other,
    }
}

// Makes the call on both sessions, and gives both answers. After any list of calls made on both, the fold accepted for the two maps,
// a witness lent run tables of one length and work tables that both suffice or both do not: the answers are the same.
pub fn perform_both<F: Map, G: Map<L = F::L>>(
    fold: &Accepted<'_>,
    full: &mut Side<'_, F>,
    folded: &mut Side<'_, G>,
    asked: Call,
) -> Pair
    ensures full { Gives (structure F.L.Look.sign (F.Map.meaning full.old.map.now)) (kept_by full.old) (lent_to full.old) asked result.full (kept_by full.new) (lent_to full.new) }
    ensures folded { Gives (structure F.L.Look.sign (G.Map.meaning folded.old.map.now)) (kept_by folded.old) (lent_to folded.old) (asked_through fold.now.table.now asked) result.folded (kept_by folded.new) (lent_to folded.new) }
    ensures both { AfterBoth F.L.Look.sign F.L.Look.same (F.Map.meaning full.old.map.now) (G.Map.meaning folded.old.map.now) fold.now.table.now (moment (kept_by full.old) (lent_to full.old) asked result.full (kept_by full.new) (lent_to full.new)) (moment (kept_by folded.old) (lent_to folded.old) (asked_through fold.now.table.now asked) result.folded (kept_by folded.new) (lent_to folded.new)) }
    ensures always { FoldsShare }
    ensures same_full { SameLent full.old full.new }
    ensures same_folded { SameLent folded.old folded.new }
{
    Pair {
        full: full.perform(asked),
        folded: folded.perform(through(fold, asked)),
    }
}

// Makes each call in turn on both sessions, and writes both answers, by index (see `write_chain`).
fn play<F: Map, G: Map<L = F::L>>(
    fold: &Accepted<'_>,
    full: &mut Side<'_, F>,
    folded: &mut Side<'_, G>,
    calls: &[Call],
    answers: &mut [Pair],
)
    requires { length calls.now ≤ length answers.old }
    ensures told { Told (structure F.L.Look.sign (F.Map.meaning full.old.map.now)) (structure F.L.Look.sign (G.Map.meaning folded.old.map.now)) fold.now.table.now (sides full.old folded.old) calls.now answers.old (length calls.now) answers.new (sides full.new folded.new) }
    ensures same_full { SameLent full.old full.new }
    ensures same_folded { SameLent folded.old folded.new }
{
    for (i, call) in calls.iter().enumerate() {
        answers[i] = perform_both(fold, full, folded, *call);
    }
}

// There is no room for the answers.
#[derive(Clone, Copy, PartialEq, Eq, Debug, Error)]
#[error("there is no room for the answers")]
pub struct ShortAnswers;

// Makes each call in turn on both sessions, and writes both answers, in order; makes none where there is no room for the answers.
// After any list of calls made on both, the fold accepted for the two maps, each witness lent run tables of one length and work
// tables that both suffice or both do not: the answers are the same.
pub fn perform_all<F: Map, G: Map<L = F::L>>(
    fold: &Accepted<'_>,
    full: &mut Side<'_, F>,
    folded: &mut Side<'_, G>,
    calls: &[Call],
    answers: &mut [Pair],
) -> Result<(), ShortAnswers>
    ensures told { ToldAll (structure F.L.Look.sign (F.Map.meaning full.old.map.now)) (structure F.L.Look.sign (G.Map.meaning folded.old.map.now)) fold.now.table.now (sides full.old folded.old) calls.now answers.old result answers.new (sides full.new folded.new) }
    ensures both { OnOk result (AfterAll F.L.Look.sign F.L.Look.same (F.Map.meaning full.old.map.now) (G.Map.meaning folded.old.map.now) fold.now.table.now (sides full.old folded.old) calls.now (full_said (length calls.now) answers.new) (folded_said (length calls.now) answers.new) (sides full.new folded.new)) }
    ensures same_full { SameLent full.old full.new }
    ensures same_folded { SameLent folded.old folded.new }
{
    if answers.len() < calls.len() {
        return Err(ShortAnswers);
    }
    play(fold, full, folded, calls, answers);
    Ok(())
}
