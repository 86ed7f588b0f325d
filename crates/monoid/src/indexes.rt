ghost use Rattle.std.specs.Prelude.{◌≡◌, ◌+◌, ◌%◌, ◌^◌, ◌<◌};
ghost use Rattle.monoid.specs.Asking.{exactly, AskedFor};
ghost use Rattle.monoid.specs.Small.{index_of_product, Carried};

use crate::small::SmallRecogniser;

// The product of two indexes: the index of the product of their elements. So the indexes are the same monoid. What comes
// of an index that is not below the order is free.
pub fn index_product<S: SmallRecogniser>(recogniser: &mut S, left: usize, right: usize) -> usize
    ensures value { S.orderly recogniser.old → left < (S.small recogniser.old).order → right < (S.small recogniser.old).order → result ≡ index_of_product (S.meaning recogniser.old) (S.small recogniser.old) left right }
    ensures below { S.orderly recogniser.old → left < (S.small recogniser.old).order → right < (S.small recogniser.old).order → result < (S.small recogniser.old).order }
    ensures carried { S.orderly recogniser.old → Carried (S.meaning recogniser.old) (S.small recogniser.old) }
    ensures asked { AskedFor S.meaning S.orderly S.tally (exactly 1) recogniser.old recogniser.new }
{
    let product = element_product(recogniser, left, right);
    recogniser.index(product)
}

// The product of the elements of two indexes.
#[tactic(auto, using(crate::proofs::Carrying::product_of_elements))]
fn element_product<S: SmallRecogniser>(recogniser: &mut S, left: usize, right: usize) -> S::Element
    ensures value { S.orderly recogniser.old → left < (S.small recogniser.old).order → right < (S.small recogniser.old).order → result ≡ (S.meaning recogniser.old).mul ((S.small recogniser.old).element left) ((S.small recogniser.old).element right) }
    ensures asked { AskedFor S.meaning S.orderly S.tally (exactly 1) recogniser.old recogniser.new }
{
    let x = recogniser.element(left);
    let y = recogniser.element(right);
    recogniser.product(x, y)
}
