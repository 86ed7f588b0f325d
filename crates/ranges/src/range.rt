ghost use Rattle.std.specs.Prelude.{◌≡◌, None};
ghost use Rattle.std.specs.Option.{option_map};
ghost use Rattle.monoid.specs.Asking.{AskedFor};
ghost use Rattle.ranges.specs.Descents.{ranged};
ghost use Rattle.ranges.specs.Parts.{Never};
ghost use Rattle.ranges.specs.Ranges.{Ranges, RangeCosts, Wholes, NoTree};

use crate::end::End;
use crate::fork::find_fork;
use crate::walk::take_end;
use cells::cell::Cell;
use cells::reach::look;
use cells::stretch::stretch_at;
use monoid::recogniser::Recogniser;

// Cells and recogniser are the caller's and lent for a call, so they stand apart.

// The product of the rows from `first` on and before `last`, of the tree under a root.
pub fn range<R: Recogniser>(
    cells: &[Cell<R::Element>],
    recogniser: &mut R,
    root: Option<u16>,
    first: u16,
    last: u16,
) -> Option<R::Element>
    ensures value { R.orderly recogniser.old → Ranges (R.meaning recogniser.old) cells.now root first last result }
    ensures refused { result ≡ None → Never cells.now root last }
    ensures walked { option_map (λ _. tt) result ≡ ranged cells.now root first last }
    ensures asked { AskedFor R.meaning R.orderly R.tally (RangeCosts cells.now root last) recogniser.old recogniser.new }
{
    if first >= last {
        return Some(recogniser.unit());
    }
    let fork = find_fork(cells, root, first, last)?;
    let cell = look(cells, fork.place)?;
    let image = recogniser.image(cell.kind);
    let front = take_end(cells, recogniser, End::Back, cell.left, fork.before, image)?;
    take_end(
        cells,
        recogniser,
        End::Front,
        cell.right,
        fork.behind,
        front,
    )
}

// The product of all rows of the tree under a root: it is stored, so no product is asked for.
pub fn whole<R: Recogniser>(
    cells: &[Cell<R::Element>],
    recogniser: &R,
    root: Option<u16>,
) -> Option<R::Element>
    ensures value { R.orderly recogniser.now → Wholes (R.meaning recogniser.now) cells.now root result }
    ensures refused { result ≡ None → NoTree cells.now root }
{
    let unit = recogniser.unit();
    let stretch = stretch_at(cells, root, unit)?;
    Some(stretch.product)
}
