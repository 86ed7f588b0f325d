ghost use Rattle.std.specs.Prelude.{◌≡◌};
ghost use Rattle.table.specs.Tables.{trivial_data};
ghost use Rattle.table.specs.Checks.{size_fits, verdict_of};
ghost use Rattle.table.specs.Verdicts.{Says};
ghost use Rattle.table.specs.Accepted.{trivial_accepted};

use crate::data::{MOST, TableData, UNIT};
use checks::data::Data;
use checks::verdict::{Flaw, Verdict, ask};
use rows::kind::KINDS;

impl Data for TableData {
    ghost verdict = { verdict_of };

    ghost Says = { Says };

    ghost trivial_data = { trivial_data };

    ghost trivial_accepted = { trivial_accepted };

    fn check(&self) -> Verdict
        ensures value { result ≡ verdict_of self.now }
        ensures says { Says self.now result }
    {
        self.first_no()
    }

    // The table of the unit alone, which is never lit.
    fn trivial() -> TableData {
        TableData {
            size: 1,
            products: [[UNIT; MOST]; MOST],
            images: [UNIT; KINDS],
            lit: [false; MOST],
        }
    }
}

impl TableData {
    fn first_no(&self) -> Verdict
        ensures value { result ≡ verdict_of self.now }
    {
        ask(self.size_fits(), Flaw::SizeOutOfLimits)?;
        ask(self.entries_fit(), Flaw::EntryTooLarge)?;
        ask(self.neutral(), Flaw::UnitNotNeutral)?;
        ask(self.associative(), Flaw::NotAssociative)
    }

    fn size_fits(&self) -> bool
        ensures value { result ≡ size_fits self.now }
    {
        (1..=MOST).contains(&usize::from(self.size))
    }
}
