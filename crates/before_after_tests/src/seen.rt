ghost use Rattle.std.specs.Prelude.{◌≡◌};
ghost use Rattle.before_after_tests.specs.Seen.{seen, by_truth};
ghost use Rattle.std.proofs.Common.{rules};

use monoid::recogniser::Recogniser;
use monoid::small::SmallRecogniser;
use monoid::tally::Tally;
use rows::kind::Kind;

// Whether a collection was seen, and lit where that is as wanted.
#[derive(Drop)]
pub struct Seen {
    wanted: bool,
    tally: Tally,
}

impl Seen {
    pub fn new(wanted: bool) -> Seen
        ensures value { result.wanted ≡ wanted }
        ensures counted { result.tally.count ≡ 0 }
    {
        Seen {
            wanted,
            tally: Tally::new(),
        }
    }
}

impl Recogniser for Seen {
    type Element = bool;

    ghost meaning = { λ s. seen s.wanted };

    ghost tally = { λ s. s.tally.count };

    ghost orderly = { λ s. Unit {0} };

    ghost shaped = { Prim.search rules };

    ghost lawful = { Prim.search rules };

    ghost bounded = { Prim.search rules };

    fn unit(&self) -> bool {
        false
    }

    fn image(&self, kind: Kind) -> bool {
        matches!(kind, Kind::Collection)
    }

    fn product(&mut self, left: bool, right: bool) -> bool {
        self.tally.raise();
        left | right
    }

    fn asked(&self) -> u64 {
        self.tally.value()
    }

    fn width(&self) -> usize {
        1
    }

    fn lit(&self, element: bool, lamp: usize) -> bool {
        lamp == 0 && element == self.wanted
    }
}

impl SmallRecogniser for Seen {
    ghost small = { λ s. by_truth };

    ghost sized = { Prim.search rules };

    ghost undone = { Prim.search rules };

    ghost steady = { Prim.search rules };

    fn order(&self) -> usize {
        2
    }

    fn index(&self, element: bool) -> usize {
        usize::from(element)
    }

    fn element(&self, index: usize) -> bool {
        index == 1
    }
}
