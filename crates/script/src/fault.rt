ghost use Rattle.std.specs.Prelude.{◌≡◌, Some};
ghost use Rattle.script.specs.Faults.{cause_number, cause_of, fault};

use plain::refusal::Refusal;

// Why a line is not worked: it is no call, or the book refuses the call.
#[derive(Clone, Copy, PartialEq, Eq, Debug)]
pub enum Cause {
    LineTooLong,
    NoCommand,
    WrongFieldCount,
    BadNumber,
    BadKind,
    Refused(Refusal),
}

impl Cause {
    // The number of a cause, which stands for that cause and for no other.
    pub fn number(self) -> u32
        ensures value { result ≡ cause_number self }
        ensures back { cause_of result ≡ Some self }
    {
        // A refusal has the number that the book gives it, so the causes have none of their own as discriminants.
        match self {
            Cause::LineTooLong => 31,
            Cause::NoCommand => 32,
            Cause::WrongFieldCount => 33,
            Cause::BadNumber => 34,
            Cause::BadKind => 35,
            Cause::Refused(refusal) => refusal.number(),
        }
    }
}

// A fault, with the number of its line from 1, and the place of the field from 1. That place is 0 where the fault is of
// no field: the answer to a line has that number there.
#[derive(Clone, Copy, PartialEq, Eq, Debug)]
pub struct Fault {
    pub cause: Cause,
    pub line: u32,
    pub field: u32,
}

impl Fault {
    // A fault of the field at a place.
    pub fn of_field(cause: Cause, line: u32, place: u32) -> Fault
        ensures value { result ≡ fault cause line place }
    {
        Fault {
            cause,
            line,
            field: place,
        }
    }

    // A fault of a line as a whole.
    pub fn of_line(cause: Cause, line: u32) -> Fault
        ensures value { result ≡ fault cause line 0 }
    {
        Fault::of_field(cause, line, 0)
    }
}
