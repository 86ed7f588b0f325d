ghost use Rattle.cells.specs.Asking.{Due, cost, Asks};
ghost use Rattle.edits.specs.Descents.{found_gap, Refuses};
ghost use Rattle.edits.specs.Inserts.{Inserts};

use crate::find::find_gap;
use cells::cell::Cell;
use cells::links::Links;
use cells::mend::{Row, mend};
use cells::mode::Mode;
use climb::rise::rise;
use monoid::recogniser::Recogniser;
use rows::kind::Kind;

// Cells, recogniser and mode are parameters: a caller lends the slice anew to each update, and the clauses compare it
// before and after.

// Inserts a row with so many rows before it, in a cell that no tree has, and gives the new root; none where a walk
// meets a cell that was not handed over, or goes too deep.
pub fn insert<R: Recogniser>(
    cells: &mut [Cell<R::Element>],
    recogniser: &mut R,
    mode: Mode,
    root: Option<u16>,
    index: u16,
    kind: Kind,
    free: u16,
) -> Option<Option<u16>>
    ensures value { Inserts (R.meaning recogniser.old) (Due mode (R.orderly recogniser.old)) mode (R.tally recogniser.old) (R.tally recogniser.new) cells.old cells.new root index kind free result }
    ensures refused { Refuses (found_gap cells.old root index) cells.old cells.new result }
    ensures asks { Asks R.meaning R.orderly R.tally (cost mode 146) recogniser.old recogniser.new }
{
    let way = find_gap(cells, root, index)?;
    let start = mend(
        cells,
        recogniser,
        mode,
        Row { place: free, kind },
        Links::NONE,
    )?;
    rise(cells, recogniser, mode, &way, Some(start))
}
