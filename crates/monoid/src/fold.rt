ghost use Rattle.std.specs.Prelude.{◌≡◌, ℕ, ◌+◌, ◌%◌, ◌^◌, true, length};
ghost use Rattle.monoid.specs.Asking.{exactly, AskedFor};
ghost use Rattle.monoid.specs.Words.{image_of};
ghost use Rattle.monoid.specs.Lamps.{lamps_of, Verdicts};

use crate::lamps::Lamps;
use crate::recogniser::Recogniser;
use rows::kind::Kind;

// The image of a word, at one product a row.
pub fn word_image<R: Recogniser>(recogniser: &mut R, word: &[Kind]) -> R::Element
    ensures value { R.orderly recogniser.old → result ≡ image_of (R.meaning recogniser.old) word.now }
    ensures asked { AskedFor R.meaning R.orderly R.tally (exactly (length word.now)) recogniser.old recogniser.new }
{
    let mut image = recogniser.unit();
    for kind in word {
        image = with_row(recogniser, image, *kind);
    }
    image
}

// The image of a word with one row more, from the image of the word.
fn with_row<R: Recogniser>(recogniser: &mut R, image: R::Element, kind: Kind) -> R::Element
    ensures value { R.orderly recogniser.old → (R.meaning recogniser.old).sound image ≡ true → result ≡ (R.meaning recogniser.old).mul image ((R.meaning recogniser.old).image kind) }
    ensures asked { AskedFor R.meaning R.orderly R.tally (exactly 1) recogniser.old recogniser.new }
{
    let row = recogniser.image(kind);
    recogniser.product(image, row)
}

// The lamps of a word: exactly those whose language holds it.
pub fn word_lamps<R: Recogniser>(recogniser: &mut R, word: &[Kind]) -> Lamps
    ensures value { R.orderly recogniser.old → result ≡ lamps_of (R.meaning recogniser.old) (image_of (R.meaning recogniser.old) word.now) }
    ensures wide { result.width ≡ (R.meaning recogniser.old).width }
    ensures verdicts { R.orderly recogniser.old → Verdicts (R.meaning recogniser.old) word.now result }
    ensures asked { AskedFor R.meaning R.orderly R.tally (exactly (length word.now)) recogniser.old recogniser.new }
{
    let image = word_image(recogniser, word);
    Lamps::of(recogniser, image)
}
