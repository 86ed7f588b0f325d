ghost use Rattle.std.specs.Prelude.{◌≡◌};
ghost use Rattle.layers_tests.specs.First.{opening_of, first_meaning, first_small};
ghost use Rattle.std.proofs.Common.{rules};

use monoid::recogniser::Recogniser;
use monoid::small::SmallRecogniser;
use monoid::tally::Tally;
use rows::kind::Kind;

// What a word begins with.
#[derive(Clone, Copy, PartialEq, Eq, Debug)]
pub enum Opening {
    Nothing,
    Collection,
    Other,
}

// Lamp 0 is lit when the first row is a collection, lamp 1 when there is a first row.
#[derive(Drop)]
pub struct First {
    tally: Tally,
}

fn opened_by(kind: Kind) -> Opening
    ensures value { result ≡ opening_of kind }
{
    match kind {
        Kind::Collection => Opening::Collection,
        _ => Opening::Other,
    }
}

impl First {
    pub fn new() -> First
        ensures counted { result.tally.count ≡ 0 }
    {
        First {
            tally: Tally::new(),
        }
    }
}

impl Recogniser for First {
    type Element = Opening;

    ghost meaning = { λ _. first_meaning };

    ghost tally = { λ s. s.tally.count };

    ghost orderly = { λ _. Unit {0} };

    ghost shaped = { Prim.search rules };

    ghost lawful = { Prim.search rules };

    ghost bounded = { Prim.search rules };

    fn unit(&self) -> Opening {
        Opening::Nothing
    }

    fn image(&self, kind: Kind) -> Opening {
        opened_by(kind)
    }

    fn product(&mut self, left: Opening, right: Opening) -> Opening {
        self.tally.raise();
        match left {
            Opening::Nothing => right,
            _ => left,
        }
    }

    fn asked(&self) -> u64 {
        self.tally.value()
    }

    fn width(&self) -> usize {
        2
    }

    fn lit(&self, element: Opening, lamp: usize) -> bool {
        match element {
            Opening::Nothing => false,
            Opening::Collection => lamp < 2,
            Opening::Other => lamp == 1,
        }
    }
}

impl SmallRecogniser for First {
    ghost small = { λ _. first_small };

    ghost sized = { Prim.search rules };

    ghost undone = { Prim.search rules };

    ghost steady = { Prim.search rules };

    fn order(&self) -> usize {
        3
    }

    fn index(&self, element: Opening) -> usize {
        element as usize
    }

    fn element(&self, index: usize) -> Opening {
        match index {
            0 => Opening::Nothing,
            1 => Opening::Collection,
            _ => Opening::Other,
        }
    }
}
