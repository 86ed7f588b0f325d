ghost use Rattle.std.specs.Prelude.{◌≡◌, ◌<◌, true};
ghost use Rattle.monoid.specs.Asking.{exactly, AskedFor};
ghost use Rattle.before_after.specs.Action.{product_on, action, acted};

use monoid::small::SmallRecogniser;
use pairs::member::Member;
use pairs::pair_set::PairSet;

// The product of a factor and an element: first members are multiplied from the left, second ones from the right.
fn product_on<R: SmallRecogniser>(
    recogniser: &mut R,
    member: Member,
    factor: R::Element,
    element: R::Element,
) -> R::Element
    ensures value { R.orderly recogniser.old → (R.meaning recogniser.old).sound factor ≡ true → (R.meaning recogniser.old).sound element ≡ true → result ≡ product_on member (R.meaning recogniser.old) factor element }
    ensures asked { AskedFor R.meaning R.orderly R.tally (exactly 1) recogniser.old recogniser.new }
{
    match member {
        Member::First => recogniser.product(factor, element),
        Member::Second => recogniser.product(element, factor),
    }
}

// Where a factor takes an index, at one product.
fn acted_index<R: SmallRecogniser>(
    recogniser: &mut R,
    member: Member,
    factor: R::Element,
    index: usize,
) -> usize
    ensures value { R.orderly recogniser.old → (R.meaning recogniser.old).sound factor ≡ true → index < (R.small recogniser.old).order → result ≡ action member (R.meaning recogniser.old) (R.small recogniser.old) factor index }
    ensures asked { AskedFor R.meaning R.orderly R.tally (exactly 1) recogniser.old recogniser.new }
{
    let element = recogniser.element(index);
    let product = product_on(recogniser, member, factor, element);
    recogniser.index(product)
}

// Where a factor takes a set of pairs, at one product for each index.
pub(crate) fn acted_pairs<R: SmallRecogniser>(
    recogniser: &mut R,
    member: Member,
    factor: R::Element,
    pairs: PairSet,
) -> PairSet
    ensures value { R.orderly recogniser.old → (R.meaning recogniser.old).sound factor ≡ true → result ≡ acted member (R.meaning recogniser.old) (R.small recogniser.old) factor pairs }
    ensures asked { AskedFor R.meaning R.orderly R.tally (exactly (R.small recogniser.old).order) recogniser.old recogniser.new }
{
    let mut taken = PairSet::empty();
    // A `for`: each product changes the recogniser.
    for index in 0..recogniser.order() {
        let to = acted_index(recogniser, member, factor, index);
        taken = taken.join(pairs.line_moved(member, index, to));
    }
    taken
}

// Whether the element of an index lights lamp 0.
pub(crate) fn index_lit<R: SmallRecogniser>(recogniser: &R, index: usize) -> bool
    ensures value { R.orderly recogniser.now → index < (R.small recogniser.now).order → result ≡ (R.meaning recogniser.now).lit ((R.small recogniser.now).element index) 0 }
{
    recogniser.lit(recogniser.element(index), 0)
}
