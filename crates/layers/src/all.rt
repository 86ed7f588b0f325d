ghost use Rattle.std.specs.Prelude.{◌≡◌, true};
ghost use Rattle.monoid.specs.Laws.{Lawful};
ghost use Rattle.layers.specs.All.{all_lit, all_meaning, Intersects};
ghost use Rattle.std.proofs.Common.{rules};

use crate::layer::{Layer, View};
use monoid::recogniser::Recogniser;

// One lamp, lit when all lamps below are lit.
pub struct Intersection;

// It recognises the intersection of the languages below.
pub type All<R> = Layer<R, Intersection>;

// Whether an element lights every lamp.
fn all_lit<R: Recogniser>(below: &R, element: R::Element) -> bool
    ensures value { R.orderly below.now → (R.meaning below.now).sound element ≡ true → result ≡ all_lit (R.meaning below.now) element }
{
    (0..below.width()).all(|lamp| below.lit(element, lamp))
}

impl<R: Recogniser> Layer<R, Intersection> {
    // It recognises the intersection of the languages below, and is in order when the one below is.
    #[tactic(auto, using(crate::proofs::Intersecting::intersects))]
    pub fn new(below: R) -> All<R>
        ensures value { result.below ≡ below }
        ensures counted { result.tally.count ≡ 0 }
        ensures meaning { ⟦<All<R> as Recogniser>⟧.meaning result ≡ all_meaning (R.meaning below) }
        ensures order { R.orderly below → R.orderly result.below }
        ensures laws { R.orderly below → Lawful (all_meaning (R.meaning result.below)) }
        ensures languages { Intersects (all_meaning (R.meaning result.below)) (R.meaning below) }
    {
        Layer::over(below)
    }
}

impl<R: Recogniser> View<R> for Intersection {
    ghost seen = { all_meaning };

    ghost keeps = { Prim.search rules };

    fn product(below: &mut R, left: R::Element, right: R::Element) -> R::Element {
        below.product(left, right)
    }

    fn width(_below: &R) -> usize {
        1
    }

    fn lit(below: &R, element: R::Element, lamp: usize) -> bool {
        lamp == 0 && all_lit(below, element)
    }
}
