// What is wrong in a text, and where.
ghost use Rattle.std.specs.Prelude.{◌≡◌};
ghost use Rattle.reader.specs.Faults.{number_of, field_of};
ghost use Rattle.reader.specs.declared.fault.Trouble.TheVariants as variants;

use calls::fault::SessionFault;
use listed::fault::ListedFault;
use map::refusal::Refusal;
use text::line::LineFault;
use thiserror::Error;

// Each case is the no to one question; a fault of a line, a map or a session is handed up whole.
#[derive(Clone, Copy, PartialEq, Eq, Debug, Error)]
pub enum Trouble {
    #[error("the text has more than 60000 bytes")]
    TooLong,
    #[error("{0}")]
    Line(LineFault),
    #[error("the line may not stand here")]
    OutOfPlace,
    #[error("the tables have no space for the line")]
    NoSpace,
    #[error("the map text has no M, or not as many S as it says")]
    Incomplete,
    // the tables that were read make no map
    #[error("{0}")]
    Map(ListedFault),
    // the session refused the row
    #[error("{0}")]
    Session(SessionFault),
}

// The trouble, and its line, counted from 1; 0 where the text is too long.
#[derive(Clone, Copy, PartialEq, Eq, Debug, Error)]
#[error("line {line}: {what}")]
pub struct TextFault {
    pub what: Trouble,
    pub line: u32,
}

impl From<LineFault> for Trouble {
    ghost from_gives = { λ fault trouble. trouble ≡ variants.Line fault };

    fn from(fault: LineFault) -> Trouble {
        Trouble::Line(fault)
    }
}

impl From<ListedFault> for Trouble {
    ghost from_gives = { λ fault trouble. trouble ≡ variants.Map fault };

    fn from(fault: ListedFault) -> Trouble {
        Trouble::Map(fault)
    }
}

impl From<SessionFault> for Trouble {
    ghost from_gives = { λ fault trouble. trouble ≡ variants.Session fault };

    fn from(fault: SessionFault) -> Trouble {
        Trouble::Session(fault)
    }
}

impl Trouble {
    // The number by which the innermost refusal is known.
    pub fn number(self) -> u8
        ensures { result ≡ number_of self }
    {
        match self {
            Trouble::TooLong => 10,
            Trouble::Line(fault) => fault.number(),
            Trouble::OutOfPlace => 13,
            Trouble::NoSpace => 14,
            Trouble::Incomplete => 15,
            Trouble::Map(fault) => fault.number(),
            Trouble::Session(fault) => fault.number(),
        }
    }

    // The first bad field of the line, the letter being field 1; 0 where the trouble is of another kind, as the line of a fault writes it.
    pub fn field(self) -> u32
        ensures { result ≡ field_of self }
    {
        match self {
            Trouble::Line(fault) => fault.carried().unwrap_or(0),
            _ => 0,
        }
    }
}
