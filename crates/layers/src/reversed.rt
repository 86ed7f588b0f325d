ghost use Rattle.std.specs.Prelude.{◌≡◌};
ghost use Rattle.std.proofs.Common.{ap, rules};
ghost use Rattle.monoid.specs.Laws.{Lawful};
ghost use Rattle.layers.specs.Reversed.{reversed_meaning, Backwards};

use crate::layer::{Layer, View};
use monoid::recogniser::Recogniser;
use monoid::small::SmallRecogniser;

// Each product the other way round.
pub struct Mirror;

// It recognises the languages below, each word read backwards.
pub type Reversed<R> = Layer<R, Mirror>;

impl<R: Recogniser> Layer<R, Mirror> {
    // It recognises the languages below, each word read backwards, and is in order when the one below is.
    #[tactic(auto, using(crate::proofs::Reversing::backwards))]
    pub fn new(below: R) -> Reversed<R>
        ensures value { result.below ≡ below }
        ensures counted { result.tally.count ≡ 0 }
        ensures meaning { ⟦<Reversed<R> as Recogniser>⟧.meaning result ≡ reversed_meaning (R.meaning below) }
        ensures order { R.orderly below → R.orderly result.below }
        ensures laws { R.orderly below → Lawful (reversed_meaning (R.meaning result.below)) }
        ensures languages { Lawful (R.meaning below) → Backwards (reversed_meaning (R.meaning result.below)) (R.meaning below) }
    {
        Layer::over(below)
    }
}

impl<R: Recogniser> View<R> for Mirror {
    ghost seen = { reversed_meaning };

    ghost keeps = { Prim.search rules };

    fn product(below: &mut R, left: R::Element, right: R::Element) -> R::Element {
        below.product(right, left)
    }

    fn width(below: &R) -> usize {
        below.width()
    }

    fn lit(below: &R, element: R::Element, lamp: usize) -> bool {
        below.lit(element, lamp)
    }
}

impl<R: SmallRecogniser> SmallRecogniser for Layer<R, Mirror> {
    ghost small = { λ s. R.small s.below };

    ghost sized = { Prim.search rules };

    ghost undone = { Prim.search rules };

    // to reverse twice is to have the meaning below again
    ghost steady = { λ s t e. R.steady s.below t.below (ap reversed_meaning e) };

    fn order(&self) -> usize {
        self.below.order()
    }

    fn index(&self, element: R::Element) -> usize {
        self.below.index(element)
    }

    fn element(&self, index: usize) -> R::Element {
        self.below.element(index)
    }
}
