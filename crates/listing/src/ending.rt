ghost use Rattle.std.specs.Prelude.{◌≡◌};
ghost use Rattle.listing.specs.Endings.{ending_number};
ghost use Rattle.listing.specs.Listings.{is_workable};

// How many bytes a script has at the most.
pub const LONGEST_SCRIPT: usize = 16384;

// How a run ends.
#[derive(Clone, Copy, PartialEq, Eq, Debug)]
pub enum Ending {
    Complete = 0,
    OutputFull = 37,
    ScriptTooLong = 38,
}

impl Ending {
    pub fn number(self) -> u32
        ensures value { result ≡ ending_number self }
    {
        self as u32
    }
}

// Whether a script of so many bytes is worked.
pub fn is_workable(length: usize) -> bool
    ensures value { result ≡ is_workable length }
{
    length <= LONGEST_SCRIPT
}
