// Why a call is refused: document 01's table of numbers, as an error that `?` hands on, and the outcome as a kernel in C is answered.
#![tactic(auto)]

ghost use Rattle.std.specs.Prelude.{◌≡◌};
ghost use Rattle.refusal.specs.Reason.{number_of, fault_of, refusal_by, refusal_at};

use std::error::Error;
use std::fmt;

/// A row of the document's table, with its number. specs/Numbers.antt has the same names for the definitions.
#[derive(Clone, Copy, Debug, PartialEq, Eq)]
pub enum Reason {
    SetupShort = 1,
    LengthDiffers = 2,
    SetupVersion = 3,
    ServerCount = 4,
    RecordCut = 5,
    ServerKind = 6,
    TaskCount = 7,
    PeriodRange = 8,
    BudgetRange = 9,
    ReleaseKind = 10,
    WorkRange = 11,
    ReleaseTimes = 12,
    BytesLeft = 13,
    MessageCut = 14,
    MessageLength = 15,
    MessageVersion = 16,
    MessageKind = 17,
    NoServer = 18,
    NoTask = 19,
    TaskPeriodic = 20,
    TicksPassed = 21,
    IdOfFiller = 22,
    IdThere = 23,
    DelayTooLong = 24,
    NoRoom = 25,
    NoSuchEvent = 26,
    EventDue = 27,
    NothingDue = 28,
    AtLongest = 29,
    NoRoomAgain = 30,
    Unsound = 31,
    BufferShort = 32,
}

impl Reason {
    pub fn number(self) -> u8
        ensures { result ≡ number_of self }
    {
        self as u8
    }

    /// Refused for this reason at a place of the input.
    pub fn at(self, place: usize) -> Fault
        ensures { result ≡ fault_of self place }
    {
        Fault {
            reason: self,
            place,
        }
    }
}

impl fmt::Display for Reason {
    fn fmt<W: fmt::Write>(&self, f: &mut fmt::Formatter<W>) -> fmt::Result {
        write!(f, "refused {}", self.number())
    }
}

impl Error for Reason {}

/// A refusal that names a place of the input, as the setup's reader does.
#[derive(Clone, Copy, Debug, PartialEq, Eq)]
pub struct Fault {
    pub reason: Reason,
    pub place: usize,
}

impl fmt::Display for Fault {
    fn fmt<W: fmt::Write>(&self, f: &mut fmt::Formatter<W>) -> fmt::Result {
        write!(f, "{} at {}", self.reason, self.place)
    }
}

impl Error for Fault {}

/// What a call answers in C, which has no `Result`: number 0 is "not refused", and the place is 0 where the document names none. The definitions say a call's
/// outcome by it too.
#[repr(C)]
#[derive(Clone, Copy, Debug, PartialEq, Eq)]
pub struct Refusal {
    pub number: u8,
    pub place: usize,
}

impl Refusal {
    pub const NONE: Refusal = Refusal {
        number: 0,
        place: 0,
    };
}

impl From<Reason> for Refusal {
    ghost from_gives = { λ r refusal. refusal ≡ refusal_by r };

    fn from(reason: Reason) -> Refusal {
        Refusal {
            number: reason.number(),
            place: 0,
        }
    }
}

impl From<Fault> for Refusal {
    ghost from_gives = { λ f refusal. refusal ≡ refusal_at f };

    fn from(fault: Fault) -> Refusal {
        Refusal {
            number: fault.reason.number(),
            place: fault.place,
        }
    }
}
