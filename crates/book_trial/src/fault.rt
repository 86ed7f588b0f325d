ghost use Rattle.std.specs.Prelude.{◌≡◌};
ghost use Rattle.book_trial.specs.declared.fault.Fault.TheVariants.{NoMemory};

use std::alloc::{AllocError, AllocFailed};
use std::fmt;

// Why a trial ended early. Each trial names faults of its own.
#[derive(Clone, Copy, PartialEq, Eq, Debug)]
pub enum Fault {
    // The book came to another number than the plain one.
    Number,
    // It showed other lamps.
    Lamps,
    // It asked for other products than it counted, or for too many.
    Count,
    // A pause handed out a token where it should not, or none where it should.
    Token,
    // Some call or number was not met often enough.
    Idle,
    NoMemory,
}

impl fmt::Display for Fault {
    fn fmt<W: fmt::Write>(&self, f: &mut fmt::Formatter<W>) -> fmt::Result {
        f.write_str(match self {
            Fault::Number => "another number",
            Fault::Lamps => "other lamps",
            Fault::Count => "another count",
            Fault::Token => "another token",
            Fault::Idle => "too few calls of a kind",
            Fault::NoMemory => "out of memory",
        })
    }
}

impl From<AllocError> for Fault {
    ghost from_gives = { λ _ e. e ≡ NoMemory };

    fn from(_: AllocError) -> Fault {
        Fault::NoMemory
    }
}

impl<T: Drop> From<AllocFailed<T>> for Fault {
    ghost from_gives = { λ _ e. e ≡ NoMemory };

    fn from(_: AllocFailed<T>) -> Fault {
        Fault::NoMemory
    }
}
