ghost use Rattle.std.specs.Prelude.{◌≡◌};
ghost use Rattle.monoid.specs.Laws.{Lawful};
ghost use Rattle.layers.specs.Not.{turned_over, not_meaning, Complements};
ghost use Rattle.std.proofs.Common.{rules};

use crate::layer::{Layer, View};
use monoid::recogniser::Recogniser;

// Each lamp turned over.
pub struct Complement;

// It recognises the complements of the languages below.
pub type Not<R> = Layer<R, Complement>;

// What a lamp shows that is turned over: nothing at or past the width.
fn turned_over(width: usize, lamp: usize, lit: bool) -> bool
    ensures value { result ≡ turned_over width lamp lit }
{
    lamp < width && !lit
}

impl<R: Recogniser> Layer<R, Complement> {
    // It recognises the complements of the languages below, and is in order when the one below is.
    pub fn new(below: R) -> Not<R>
        ensures value { result.below ≡ below }
        ensures counted { result.tally.count ≡ 0 }
        ensures meaning { ⟦<Not<R> as Recogniser>⟧.meaning result ≡ not_meaning (R.meaning below) }
        ensures order { R.orderly below → R.orderly result.below }
        ensures laws { R.orderly below → Lawful (not_meaning (R.meaning result.below)) }
        ensures languages { Complements (not_meaning (R.meaning result.below)) (R.meaning below) }
    {
        Layer::over(below)
    }
}

impl<R: Recogniser> View<R> for Complement {
    ghost seen = { not_meaning };

    ghost keeps = { Prim.search rules };

    fn product(below: &mut R, left: R::Element, right: R::Element) -> R::Element {
        below.product(left, right)
    }

    fn width(below: &R) -> usize {
        below.width()
    }

    fn lit(below: &R, element: R::Element, lamp: usize) -> bool {
        turned_over(below.width(), lamp, below.lit(element, lamp))
    }
}
