ghost use Rattle.std.specs.Prelude.{◌≡◌};
ghost use Rattle.monoid.specs.Asking.{AskedFor};
ghost use Rattle.cells.specs.Counts.{Asked};
ghost use Rattle.ranges.specs.Joins.{Joins, JoinsAt, Extends};

use crate::end::End;
use monoid::recogniser::Recogniser;
use rows::kind::Kind;

// The image of two words, one after the other.
#[tactic(auto, using(crate::proofs::Joining::two_words))]
pub fn join<R: Recogniser>(recogniser: &mut R, left: R::Element, right: R::Element) -> R::Element
    ensures value { R.orderly recogniser.old → Joins (R.meaning recogniser.old) left right result }
    ensures asked { AskedFor R.meaning R.orderly R.tally (Asked 1) recogniser.old recogniser.new }
{
    recogniser.product(left, right)
}

// The image of a word and another one beside it.
fn join_at<R: Recogniser>(
    recogniser: &mut R,
    end: End,
    word: R::Element,
    other: R::Element,
) -> R::Element
    ensures value { R.orderly recogniser.old → JoinsAt (R.meaning recogniser.old) end word other result }
    ensures asked { AskedFor R.meaning R.orderly R.tally (Asked 1) recogniser.old recogniser.new }
{
    match end {
        End::Front => join(recogniser, word, other),
        End::Back => join(recogniser, other, word),
    }
}

// The image of a word, a stretch beside it and a row beside that.
pub(crate) fn extend<R: Recogniser>(
    recogniser: &mut R,
    end: End,
    word: R::Element,
    stretch: R::Element,
    kind: Kind,
) -> R::Element
    ensures value { R.orderly recogniser.old → Extends (R.meaning recogniser.old) end word stretch kind result }
    ensures asked { AskedFor R.meaning R.orderly R.tally (Asked 2) recogniser.old recogniser.new }
{
    let image = recogniser.image(kind);
    let other = join_at(recogniser, end, stretch, image);
    join_at(recogniser, end, word, other)
}
