ghost use Rattle.monoid.specs.Asking.{AskedFor};
ghost use Rattle.cells.specs.Counts.{Asked};
ghost use Rattle.whole.specs.Descents.{Unreached, Bare, UnreachedRow};
ghost use Rattle.whole.specs.Renewing.{Between, Refreshes, Two, Renews, Recomputes, RecomputeCosts};

use crate::ranks::find_ranked;
use cells::cell::Cell;
use cells::reach::{look, put};
use cells::stretch::{size_at, stretch_at};
use monoid::recogniser::Recogniser;
use ranges::join::join;
use rows::kind::Kind;

// Cells and recogniser are the caller's and lent for a call, so they stand apart.

// The product of a stretch, a row and another stretch.
fn product_between<R: Recogniser>(
    recogniser: &mut R,
    left: R::Element,
    kind: Kind,
    right: R::Element,
) -> R::Element
    ensures value { R.orderly recogniser.old → Between (R.meaning recogniser.old) left kind right result }
    ensures asked { AskedFor R.meaning R.orderly R.tally (Asked 2) recogniser.old recogniser.new }
{
    let image = recogniser.image(kind);
    let front = join(recogniser, left, image);
    join(recogniser, front, right)
}

// Computes the stored product of the row at a place anew from those of its sides.
// Not by `cells::mend`: that writes height and size too, and promises two products at the most where two exactly are
// promised here.
fn refresh<R: Recogniser>(
    cells: &mut [Cell<R::Element>],
    recogniser: &mut R,
    place: u16,
) -> Option<u16>
    ensures value { Refreshes (R.meaning recogniser.old) (R.orderly recogniser.old) cells.old cells.new place result }
    ensures bare { Bare cells.old cells.new }
    ensures asked { AskedFor R.meaning R.orderly R.tally (Two result) recogniser.old recogniser.new }
{
    let unit = recogniser.unit();
    let mut cell = look(cells, place)?;
    let left = stretch_at(cells, cell.left, unit)?;
    let right = stretch_at(cells, cell.right, unit)?;
    cell.product = product_between(recogniser, left.product, cell.kind, right.product);
    put(cells, place, cell);
    Some(place)
}

// Computes the stored product of the row of a rank anew.
fn renew<R: Recogniser>(
    cells: &mut [Cell<R::Element>],
    recogniser: &mut R,
    root: Option<u16>,
    rank: u16,
) -> Option<u16>
    ensures value { Renews (R.meaning recogniser.old) (R.orderly recogniser.old) cells.old cells.new root rank result }
    ensures unreached { Unreached cells.old cells.new root rank result }
    ensures bare { Bare cells.old cells.new }
    ensures asked { AskedFor R.meaning R.orderly R.tally (Two result) recogniser.old recogniser.new }
{
    let place = find_ranked(cells, root, rank)?;
    refresh(cells, recogniser, place)
}

// Computes every stored product of the tree under a root anew, whatever they were; gives the number of its rows.
pub fn recompute<R: Recogniser>(
    cells: &mut [Cell<R::Element>],
    recogniser: &mut R,
    root: Option<u16>,
) -> Option<u16>
    ensures value { Recomputes (R.meaning recogniser.old) (R.orderly recogniser.old) cells.old cells.new root result }
    ensures unreached { UnreachedRow cells.old root result }
    ensures bare { Bare cells.old cells.new }
    ensures asked { AskedFor R.meaning R.orderly R.tally (RecomputeCosts cells.old root) recogniser.old recogniser.new }
{
    let rows = size_at(cells, root)?;
    for done in 0..rows {
        renew(cells, recogniser, root, done + 1)?;
    }
    Some(rows)
}
