ghost use Rattle.std.specs.Prelude.{◌*◌};
ghost use Rattle.cells.specs.Asking.{Due, cost, Asks};
ghost use Rattle.edits.specs.Descents.{found, Refuses};
ghost use Rattle.edits.specs.Replaces.{Freshens, Renews, Replaces};

use crate::find::find;
use cells::cell::Cell;
use cells::mend::{Row, mend};
use cells::mode::Mode;
use cells::reach::look;
use climb::way::Way;
use monoid::recogniser::Recogniser;
use rows::kind::Kind;

// Cells, recogniser and mode are parameters: a caller lends the slice anew to each update, and the clauses compare it
// before and after.

// Refreshes what the row at a place stores, and gives the place.
fn freshen<R: Recogniser>(
    cells: &mut [Cell<R::Element>],
    recogniser: &mut R,
    mode: Mode,
    place: u16,
) -> Option<u16>
    ensures value { Freshens (R.meaning recogniser.old) (Due mode (R.orderly recogniser.old)) cells.old cells.new place result }
    ensures asks { Asks R.meaning R.orderly R.tally (cost mode 2) recogniser.old recogniser.new }
{
    let cell = look(cells, place)?;
    let row = Row {
        place,
        kind: cell.kind,
    };
    mend(cells, recogniser, mode, row, cell.links())
}

// Refreshes what every row of a way stores, from the last up, over the row at a place, and gives the place of the root.
fn renew<R: Recogniser>(
    cells: &mut [Cell<R::Element>],
    recogniser: &mut R,
    mode: Mode,
    way: &Way,
    start: u16,
) -> Option<u16>
    ensures value { Renews (R.meaning recogniser.old) (Due mode (R.orderly recogniser.old)) cells.old cells.new way.now start result }
    ensures asks { Asks R.meaning R.orderly R.tally (cost mode (2 * way.now.depth)) recogniser.old recogniser.new }
    ensures most { Asks R.meaning R.orderly R.tally (cost mode 48) recogniser.old recogniser.new }
{
    let mut top = start;
    // A loop of its own beside that of `rise`: one over a step handed in would carry the contracts of both steps.
    for step in way.taken()?.iter().rev() {
        top = freshen(cells, recogniser, mode, step.place)?;
    }
    Some(top)
}

// Replaces the kind of the row with so many rows before it, and gives the root, which stays; none where a walk meets a
// cell that was not handed over, or goes too deep.
pub fn replace<R: Recogniser>(
    cells: &mut [Cell<R::Element>],
    recogniser: &mut R,
    mode: Mode,
    root: Option<u16>,
    index: u16,
    kind: Kind,
) -> Option<u16>
    ensures value { Replaces (R.meaning recogniser.old) (Due mode (R.orderly recogniser.old)) mode (R.tally recogniser.old) (R.tally recogniser.new) cells.old cells.new root index kind result }
    ensures refused { Refuses (found cells.old root index) cells.old cells.new result }
    ensures asks { Asks R.meaning R.orderly R.tally (cost mode 50) recogniser.old recogniser.new }
{
    let row = find(cells, root, index)?;
    let cell = look(cells, row.place)?;
    let changed = Row {
        place: row.place,
        kind,
    };
    let start = mend(cells, recogniser, mode, changed, cell.links())?;
    renew(cells, recogniser, mode, &row.way, start)
}
