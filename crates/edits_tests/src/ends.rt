ghost use Rattle.edits_tests.specs.Ends.{ends_meaning};
ghost use Rattle.std.proofs.Common.{rules};

use monoid::recogniser::Recogniser;
use monoid::tally::Tally;
use rows::kind::Kind;

// The kinds of the first and the last row of a word, if it has any.
#[derive(Clone, Copy, PartialEq, Eq, Debug)]
pub struct Pair {
    pub first: Option<Kind>,
    pub last: Option<Kind>,
}

impl Pair {
    // Of no rows.
    pub const NONE: Pair = Pair {
        first: None,
        last: None,
    };
}

// The recogniser of the first and the last row.
#[derive(Drop)]
pub struct Ends {
    pub tally: Tally,
}

impl Recogniser for Ends {
    type Element = Pair;

    ghost meaning = { λ s. ends_meaning };

    ghost tally = { λ s. s.tally.count };

    ghost orderly = { λ s. Unit {0} };

    ghost shaped = { Prim.search rules };

    ghost lawful = { Prim.search rules };

    ghost bounded = { Prim.search rules };

    fn unit(&self) -> Pair {
        Pair::NONE
    }

    fn image(&self, kind: Kind) -> Pair {
        Pair {
            first: Some(kind),
            last: Some(kind),
        }
    }

    fn product(&mut self, left: Pair, right: Pair) -> Pair {
        self.tally.raise();
        Pair {
            first: left.first.or(right.first),
            last: right.last.or(left.last),
        }
    }

    fn asked(&self) -> u64 {
        self.tally.value()
    }

    fn width(&self) -> usize {
        1
    }

    fn lit(&self, element: Pair, lamp: usize) -> bool {
        lamp == 0 && element.first == Some(Kind::Heading)
    }
}
