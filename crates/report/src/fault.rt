// Why there is no report.
ghost use Rattle.std.specs.Prelude.{◌≡◌};
ghost use Rattle.report.specs.Faults.{refusal};
ghost use Rattle.report.specs.declared.fault.ReportFault.TheVariants as variants;

use map::refusal::Refusal;
use thiserror::Error;
use writing::fault::SaveFault;

// Each case is the no to one question. That of `writing` is here under the same name.
#[derive(Clone, Copy, PartialEq, Eq, Debug, Error)]
pub enum ReportFault {
    #[error("the sheet has fewer words than the map has states")]
    ShortSheet,
    #[error("the text is longer than the buffer")]
    NoRoom,
}

impl From<SaveFault> for ReportFault {
    ghost from_gives = { λ fault report. report ≡ variants.NoRoom };

    fn from(fault: SaveFault) -> ReportFault {
        match fault {
            SaveFault::NoRoom => ReportFault::NoRoom,
        }
    }
}

impl Refusal for ReportFault {
    ghost told = { λ f. refusal f };

    fn number(self) -> u8 {
        match self {
            ReportFault::ShortSheet => 17,
            ReportFault::NoRoom => 37,
        }
    }

    fn carried(self) -> Option<u32> {
        None
    }
}
