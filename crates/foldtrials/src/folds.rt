// One case: two maps of one kind of look and a class table.
use crate::parse::{Halves, Numbered, Switches, Tables, read_numbers};
use foldcheck::fault::FoldFault;
use foldcheck::offer::offer;
use look::level::LevelLook;
use look::switch::SwitchLook;
use map::Map;
use map::refusal::Refusal;
use std::alloc::{AllocError, Global};
use std::fmt;

// What is said of a case, printed as the line that it writes.
#[derive(Clone, Copy, PartialEq, Eq, Debug)]
pub(crate) enum Said {
    Accepted,
    Refused(FoldFault),
    // there is no such kind of case
    NoSuchKind,
}

impl fmt::Display for Said {
    fn fmt<W: fmt::Write>(&self, f: &mut fmt::Formatter<W>) -> fmt::Result {
        match self {
            Said::Accepted => f.write_str("accepted"),
            Said::Refused(fault) => match fault.carried() {
                Some(s) => write!(f, "{} {s}", fault.number()),
                None => write!(f, "{}", fault.number()),
            },
            Said::NoSuchKind => f.write_str("?"),
        }
    }
}

// A case: its two maps as they are written, and the class table.
#[derive(Drop)]
struct Case<'a> {
    full: &'a str,
    folded: &'a str,
    classes: Vec<u32>,
}

// An associated type cannot have a lifetime, so no trait can say that a map lends what was read: each kind of case reads its own.
impl Case<'_> {
    // Offers the table, and says what the check finds.
    fn judge<F: Map, G: Map<L = F::L>>(&self, full: &F, folded: &G) -> Said {
        match offer(&self.classes).check(full, folded) {
            Ok(_) => Said::Accepted,
            Err(fault) => Said::Refused(fault),
        }
    }

    // `ll` and `vv`: two listed maps, of switch looks or of level looks.
    fn two_listed<L: Numbered>(&self, heap: Global) -> Result<Said, AllocError> {
        let full = Tables::<L>::read(heap, self.full)?;
        let folded = Tables::<L>::read(heap, self.folded)?;
        Ok(self.judge(&full.map(), &folded.map()))
    }

    // `sl`: a switch map onto a listed map.
    fn switches_on_listed(&self, heap: Global) -> Result<Said, AllocError> {
        let full = Switches::read(heap, self.full)?;
        let folded = Tables::<SwitchLook>::read(heap, self.folded)?;
        Ok(self.judge(&full.map(), &folded.map()))
    }

    // `ss`: a switch map onto a switch map.
    fn two_switches(&self, heap: Global) -> Result<Said, AllocError> {
        let full = Switches::read(heap, self.full)?;
        let folded = Switches::read(heap, self.folded)?;
        Ok(self.judge(&full.map(), &folded.map()))
    }

    // `jj`: two joint maps of listed maps.
    fn two_joints(&self, heap: Global) -> Result<Said, AllocError> {
        let full = Halves::read(heap, self.full)?;
        let folded = Halves::read(heap, self.folded)?;
        Ok(self.judge(&full.map(), &folded.map()))
    }
}

// Runs the case of a line: its kind, its maps and its classes, parted by blanks.
pub(crate) fn run_case(heap: Global, line: &str) -> Result<Said, AllocError> {
    let mut words = line.splitn(4, ' ');
    let kind = words.next().unwrap_or("");
    let case = Case {
        full: words.next().unwrap_or(""),
        folded: words.next().unwrap_or(""),
        classes: read_numbers(heap, words.next().unwrap_or(""))?,
    };
    match kind {
        "ll" => case.two_listed::<SwitchLook>(heap),
        "vv" => case.two_listed::<LevelLook>(heap),
        "sl" => case.switches_on_listed(heap),
        "ss" => case.two_switches(heap),
        "jj" => case.two_joints(heap),
        _ => Ok(Said::NoSuchKind),
    }
}
