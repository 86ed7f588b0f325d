ghost use Rattle.std.specs.Prelude.{◌≡◌, ◌+◌, ◌%◌, ◌^◌, true};
ghost use Rattle.monoid.specs.Meaning.{Meaning};
ghost use Rattle.monoid.specs.Laws.{Lawful};
ghost use Rattle.monoid.specs.Asking.{exactly, AskedFor};
ghost use Rattle.layers.specs.Layer.{Keeps};
ghost use Rattle.std.proofs.Common.{rules};

use monoid::recogniser::Recogniser;
use monoid::tally::Tally;
use rows::kind::Kind;
use std::marker::PhantomData;

// A way to see a recogniser: its elements and images as they are, with products or lamps of another kind.
pub trait View<R: Recogniser> {
    // What it makes of the recogniser's meaning.
    ghost seen: { Meaning R.Element → Meaning R.Element };

    // A product, which is one product of the recogniser: were it two, a pile of layers would cost twice as many with each.
    fn product(below: &mut R, left: R::Element, right: R::Element) -> R::Element
        ensures value { R.orderly below.old → (R.meaning below.old).sound left ≡ true → (R.meaning below.old).sound right ≡ true → result ≡ (seen (R.meaning below.old)).mul left right }
        ensures asked { AskedFor R.meaning R.orderly R.tally (exactly 1) below.old below.new };

    fn width(below: &R) -> usize
        ensures value { result ≡ (seen (R.meaning below.now)).width };

    fn lit(below: &R, element: R::Element, lamp: usize) -> bool
        ensures value { R.orderly below.now → (R.meaning below.now).sound element ≡ true → result ≡ (seen (R.meaning below.now)).lit element lamp };

    ghost keeps: { (m : Meaning R.Element) → Keeps (seen m) m };
}

// A recogniser that answers by another one, seen in some way.
#[derive(Drop)]
pub struct Layer<R, V> {
    pub(crate) below: R,
    tally: Tally,
    view: PhantomData<V>,
}

impl<R: Recogniser, V: View<R>> Layer<R, V> {
    // Over a recogniser, and in order when that one is. What it recognises is said where each view is made.
    pub(crate) fn over(below: R) -> Layer<R, V>
        ensures value { result.below ≡ below }
        ensures counted { result.tally.count ≡ 0 }
        ensures meaning { V.seen (R.meaning result.below) ≡ V.seen (R.meaning below) }
        ensures order { R.orderly below → R.orderly result.below }
        ensures laws { R.orderly below → Lawful (V.seen (R.meaning result.below)) }
    {
        Layer {
            below,
            tally: Tally::new(),
            view: PhantomData,
        }
    }
}

impl<R: Recogniser, V: View<R>> Recogniser for Layer<R, V> {
    type Element = R::Element;

    ghost meaning = { λ s. V.seen (R.meaning s.below) };

    ghost tally = { λ s. s.tally.count };

    ghost orderly = { λ s. R.orderly s.below };

    ghost shaped = { λ s. (V.keeps (R.meaning s.below)).shaped (R.shaped s.below) };

    ghost lawful = { λ s o. (V.keeps (R.meaning s.below)).lawful (R.lawful s.below o) };

    ghost bounded = { Prim.search rules };

    fn unit(&self) -> R::Element {
        self.below.unit()
    }

    fn image(&self, kind: Kind) -> R::Element {
        self.below.image(kind)
    }

    // One product below, as the view says.
    fn product(&mut self, left: R::Element, right: R::Element) -> R::Element
        ensures value { let m = V.seen (R.meaning self.old.below) in R.orderly self.old.below → m.sound left ≡ true → m.sound right ≡ true → result ≡ m.mul left right }
        ensures same { V.seen (R.meaning self.new.below) ≡ V.seen (R.meaning self.old.below) }
        ensures order { R.orderly self.old.below → R.orderly self.new.below }
        ensures counted { self.new.tally.count ≡ (self.old.tally.count + 1) % 2 ^ 64 }
        ensures below { AskedFor R.meaning R.orderly R.tally (exactly 1) self.old.below self.new.below }
    {
        self.tally.raise();
        V::product(&mut self.below, left, right)
    }

    fn asked(&self) -> u64 {
        self.tally.value()
    }

    fn width(&self) -> usize {
        V::width(&self.below)
    }

    fn lit(&self, element: R::Element, lamp: usize) -> bool {
        V::lit(&self.below, element, lamp)
    }
}
