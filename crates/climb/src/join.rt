ghost use Rattle.cells.specs.Asking.{Due, cost, Asks};
ghost use Rattle.climb.specs.Joins.{Joins};
ghost use Rattle.climb.specs.Plans.{Restructures};

use crate::plan::{Plan, Triple, choose};
use cells::cell::Cell;
use cells::links::Links;
use cells::mend::{Row, mend};
use cells::mode::Mode;
use monoid::recogniser::Recogniser;

// Cells, recogniser and mode are parameters: a caller lends the slice anew to each update, and the clauses compare it
// before and after.

// Writes three rows with four trees around them, the middle row over the other two.
fn restructure<R: Recogniser>(
    cells: &mut [Cell<R::Element>],
    recogniser: &mut R,
    mode: Mode,
    triple: Triple,
) -> Option<u16>
    ensures value { Restructures (R.meaning recogniser.old) (Due mode (R.orderly recogniser.old)) cells.old cells.new triple result }
    ensures asks { Asks R.meaning R.orderly R.tally (cost mode 6) recogniser.old recogniser.new }
{
    let low = mend(
        cells,
        recogniser,
        mode,
        triple.low,
        Links {
            left: triple.first,
            right: triple.second,
        },
    )?;
    let high = mend(
        cells,
        recogniser,
        mode,
        triple.high,
        Links {
            left: triple.third,
            right: triple.fourth,
        },
    )?;
    mend(
        cells,
        recogniser,
        mode,
        triple.middle,
        Links {
            left: Some(low),
            right: Some(high),
        },
    )
}

// Joins two trees around a row, and gives the place of the root; balanced where the trees are and their heights differ
// by two at the most.
pub fn join<R: Recogniser>(
    cells: &mut [Cell<R::Element>],
    recogniser: &mut R,
    mode: Mode,
    row: Row,
    links: Links,
) -> Option<u16>
    ensures value { Joins (R.meaning recogniser.old) (Due mode (R.orderly recogniser.old)) cells.old cells.new row links.left links.right result }
    ensures asks { Asks R.meaning R.orderly R.tally (cost mode 6) recogniser.old recogniser.new }
{
    match choose(cells, row, links)? {
        Plan::Straight => mend(cells, recogniser, mode, row, links),
        Plan::Restructured(triple) => restructure(cells, recogniser, mode, triple),
    }
}
