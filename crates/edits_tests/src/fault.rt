ghost use Rattle.std.specs.Prelude.{◌≡◌};
ghost use Rattle.edits_tests.specs.declared.fault.Fault.TheVariants.{NoMemory};

use std::alloc::AllocFailed;

// Why a test fails.
#[derive(Clone, Copy, PartialEq, Eq, Debug)]
pub enum Fault {
    // An edit was refused.
    Refused,
    // The tree has not the rows or the products of the list.
    Differs,
    NoMemory,
}

impl<T: Drop> From<AllocFailed<T>> for Fault {
    ghost from_gives = { λ _ e. e ≡ NoMemory };

    fn from(_: AllocFailed<T>) -> Fault {
        Fault::NoMemory
    }
}

#[cfg(test)]
mod tests {
    use super::*;
    use std::test::Fail;

    #[test]
    fn no_memory_is_told(rt: HostRuntime) -> Result<(), Fail> {
        assert_eq!(rt; Fault::from(AllocFailed { value: 7u16 }), Fault::NoMemory);
        Ok(())
    }
}
