ghost use Rattle.monoid.specs.Asking.{exactly, AskedFor};

use monoid::recogniser::Recogniser;
use rows::kind::Kind;

// How many factors there are, each the image of a word of its own.
pub const FACTORS: usize = 16;

// The rows by which the words grow, a fixed mix.
const ROWS: [Kind; FACTORS] = [
    Kind::Item,
    Kind::Heading,
    Kind::Collection,
    Kind::Summary,
    Kind::Note,
    Kind::Collection,
    Kind::Heading,
    Kind::Note,
    Kind::Summary,
    Kind::Blank,
    Kind::Note,
    Kind::Heading,
    Kind::RateOnly,
    Kind::Note,
    Kind::Collection,
    Kind::ProvisionalSum,
];

// The images of sixteen words, each a row longer than the one before it.
pub fn word_images<R: Recogniser>(recogniser: &mut R) -> [R::Element; FACTORS]
    ensures asked { AskedFor R.meaning R.orderly R.tally (exactly 16) recogniser.old recogniser.new }
{
    let mut image = recogniser.unit();
    let mut images = [image; FACTORS];
    // By its place, which also says at which end the word grows.
    for (place, kind) in ROWS.iter().enumerate() {
        image = grown(recogniser, image, *kind, place % 2 == 0);
        images[place] = image;
    }
    images
}

// The image of a word with one row more, at its end or at its start.
fn grown<R: Recogniser>(
    recogniser: &mut R,
    image: R::Element,
    kind: Kind,
    at_end: bool,
) -> R::Element
    ensures asked { AskedFor R.meaning R.orderly R.tally (exactly 1) recogniser.old recogniser.new }
{
    let row = recogniser.image(kind);
    if at_end {
        recogniser.product(image, row)
    } else {
        recogniser.product(row, image)
    }
}
