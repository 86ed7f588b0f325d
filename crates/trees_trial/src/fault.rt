ghost use Rattle.std.specs.Prelude.{◌≡◌};
ghost use Rattle.trees_trial.specs.declared.fault.Fault.TheVariants.{NoMemory};

use std::alloc::{AllocError, AllocFailed};
use std::fmt;

// Why a trial ended early. Each trial names faults of its own.
#[derive(Clone, Copy, PartialEq, Eq, Debug)]
pub enum Fault {
    // An operation refused.
    Refused,
    // The tree has not the rows or the lamps of the list.
    Differs,
    // An operation asked for more products than it may.
    Costly,
    NoMemory,
}

impl fmt::Display for Fault {
    fn fmt<W: fmt::Write>(&self, f: &mut fmt::Formatter<W>) -> fmt::Result {
        f.write_str(match self {
            Fault::Refused => "refused",
            Fault::Differs => "differs",
            Fault::Costly => "asks too much",
            Fault::NoMemory => "out of memory",
        })
    }
}

impl From<AllocError> for Fault {
    ghost from_gives = { λ _ e. e ≡ NoMemory };

    fn from(_: AllocError) -> Fault {
        Fault::NoMemory
    }
}

impl<T: Drop> From<AllocFailed<T>> for Fault {
    ghost from_gives = { λ _ e. e ≡ NoMemory };

    fn from(_: AllocFailed<T>) -> Fault {
        Fault::NoMemory
    }
}
