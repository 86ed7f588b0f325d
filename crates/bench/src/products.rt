ghost use Rattle.std.specs.Prelude.{◌*◌, ◌^◌, ◌<◌, ◌≤◌};
ghost use Rattle.std.specs.Mem.{type_size};
ghost use Rattle.monoid.specs.Asking.{exactly, AskedFor};

use crate::factors::{FACTORS, word_images};
use monoid::recogniser::Recogniser;

// Both factors change from turn to turn, and each pair comes once in so many turns.
const PAIRS: u64 = 256;

// How many products are kept, the last ones.
const KEPT: u64 = 16;

// So many products of a recogniser, by its images of words: how many of the last light lamp 0.
pub(crate) fn products_of<R: Recogniser + Drop>(mut recogniser: R, turns: u64) -> u64
    requires { 16 * type_size R.Element.row < 2 ^ 63 }
    ensures bound { result ≤ 16 }
{
    let factors = word_images(&mut recogniser);
    fold_products(&mut recogniser, &factors, turns)
}

// Multiplies two factors in each turn, and counts the last products that light lamp 0. The products are kept until
// then, so that no compiler can leave one out.
pub fn fold_products<R: Recogniser>(
    recogniser: &mut R,
    factors: &[R::Element; FACTORS],
    turns: u64,
) -> u64
    ensures bound { result ≤ 16 }
    ensures asked { AskedFor R.meaning R.orderly R.tally (exactly turns) recogniser.old recogniser.new }
{
    let mut products = [factors[0]; FACTORS];
    // By number: a turn chooses the factors and the place that the product is kept at.
    for turn in 0..turns {
        let product = turn_product(recogniser, factors, turn);
        products[(turn % KEPT) as usize] = product;
    }
    count_lit(recogniser, &products)
}

// The product of a turn.
fn turn_product<R: Recogniser>(
    recogniser: &mut R,
    factors: &[R::Element; FACTORS],
    turn: u64,
) -> R::Element
    ensures asked { AskedFor R.meaning R.orderly R.tally (exactly 1) recogniser.old recogniser.new }
{
    let pair = (turn % PAIRS) as usize;
    let left = factors[pair % FACTORS];
    let right = factors[(pair + pair / FACTORS) % FACTORS];
    recogniser.product(left, right)
}

// How many of the elements light lamp 0.
fn count_lit<R: Recogniser>(recogniser: &R, elements: &[R::Element; FACTORS]) -> u64
    ensures bound { result ≤ 16 }
{
    elements
        .iter()
        .filter(|element| recogniser.lit(**element, 0))
        .count() as u64
}
