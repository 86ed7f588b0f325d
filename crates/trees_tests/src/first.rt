ghost use Rattle.trees_tests.specs.Firsts.{first_meaning};
ghost use Rattle.std.proofs.Common.{rules};

use monoid::recogniser::Recogniser;
use monoid::tally::Tally;
use rows::kind::Kind;

// An element is the place of the first row, counted from 1, or 0 for no row.
// A number and no Option of a kind: the tests store products that no rows have, such as 9.
#[derive(Drop)]
pub struct First {
    pub tally: Tally,
}

impl Recogniser for First {
    type Element = u8;

    ghost meaning = { λ s. first_meaning };

    ghost tally = { λ s. s.tally.count };

    ghost orderly = { λ s. Unit {0} };

    ghost shaped = { Prim.search rules };

    ghost lawful = { Prim.search rules };

    ghost bounded = { Prim.search rules };

    fn unit(&self) -> u8 {
        0
    }

    fn image(&self, kind: Kind) -> u8 {
        kind.place() as u8 + 1
    }

    fn product(&mut self, left: u8, right: u8) -> u8 {
        self.tally.raise();
        if left == 0 { right } else { left }
    }

    fn asked(&self) -> u64 {
        self.tally.value()
    }

    fn width(&self) -> usize {
        1
    }

    fn lit(&self, element: u8, lamp: usize) -> bool {
        lamp == 0 && element == 1
    }
}
