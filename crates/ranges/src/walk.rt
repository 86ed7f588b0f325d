ghost use Rattle.std.specs.Prelude.{◌≡◌, None};
ghost use Rattle.std.specs.Option.{option_map};
ghost use Rattle.monoid.specs.Asking.{AskedFor};
ghost use Rattle.ranges.specs.Descents.{taken};
ghost use Rattle.ranges.specs.Parts.{Never, TakesEnd, Costs};

use crate::end::End;
use crate::fork::past;
use crate::join::extend;
use cells::cell::Cell;
use cells::reach::look;
use cells::stretch::{MOST_DEPTH, stretch_at};
use monoid::recogniser::Recogniser;

// Cells and recogniser are the caller's and lent for a call, so they stand apart.

// The image of a word, and beside it so many rows at an end of the tree under a root.
pub(crate) fn take_end<R: Recogniser>(
    cells: &[Cell<R::Element>],
    recogniser: &mut R,
    end: End,
    root: Option<u16>,
    number: u16,
    start: R::Element,
) -> Option<R::Element>
    ensures value { R.orderly recogniser.old → TakesEnd (R.meaning recogniser.old) cells.now end root number start result }
    ensures refused { result ≡ None → Never cells.now root number }
    ensures walked { option_map (λ _. tt) result ≡ taken end cells.now root number }
    ensures asked { AskedFor R.meaning R.orderly R.tally (Costs cells.now root number) recogniser.old recogniser.new }
{
    let unit = recogniser.unit();
    let mut product = start;
    let mut at = root;
    let mut rest = number;
    // A loop of its own: the walks differ in what they carry down and in where they stop.
    for _ in 0..MOST_DEPTH {
        let Some(place) = at else {
            return Some(product);
        };
        let cell = look(cells, place)?;
        let sides = end.sides(cell);
        let stretch = stretch_at(cells, sides.near, unit)?;
        if rest <= stretch.size {
            at = sides.near;
            continue;
        }
        product = extend(recogniser, end, product, stretch.product, cell.kind);
        rest = past(rest, stretch.size);
        at = sides.far;
    }
    match at {
        None => Some(product),
        Some(_) => None,
    }
}
