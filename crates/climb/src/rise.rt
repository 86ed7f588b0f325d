ghost use Rattle.std.specs.Prelude.{◌≡◌, ◌*◌, ◌<◌, None};
ghost use Rattle.cells.specs.Asking.{Due, cost, Asks};
ghost use Rattle.cells.specs.Descents.{most_depth};
ghost use Rattle.climb.specs.Rises.{Levels, Rises};

use crate::join::join;
use crate::way::{Step, Way};
use cells::cell::Cell;
use cells::mend::Row;
use cells::mode::Mode;
use cells::reach::look;
use monoid::recogniser::Recogniser;

// Cells, recogniser and mode are parameters: a caller lends the slice anew to each update, and the clauses compare it
// before and after.

// Joins the row of a step anew, with a link in the place of the one on the step's side.
fn level<R: Recogniser>(
    cells: &mut [Cell<R::Element>],
    recogniser: &mut R,
    mode: Mode,
    step: Step,
    link: Option<u16>,
) -> Option<u16>
    ensures value { Levels (R.meaning recogniser.old) (Due mode (R.orderly recogniser.old)) cells.old cells.new step.place step.side link result }
    ensures asks { Asks R.meaning R.orderly R.tally (cost mode 6) recogniser.old recogniser.new }
{
    let cell = look(cells, step.place)?;
    let row = Row {
        place: step.place,
        kind: cell.kind,
    };
    let links = cell.links().with(step.side, link);
    join(cells, recogniser, mode, row, links)
}

// Joins every row of a way anew, from the last up, over the tree that a link leads to, and gives the link of the root.
pub fn rise<R: Recogniser>(
    cells: &mut [Cell<R::Element>],
    recogniser: &mut R,
    mode: Mode,
    way: &Way,
    start: Option<u16>,
) -> Option<Option<u16>>
    ensures value { Rises (R.meaning recogniser.old) (Due mode (R.orderly recogniser.old)) cells.old cells.new way.now start result }
    ensures asks { Asks R.meaning R.orderly R.tally (cost mode (6 * way.now.depth)) recogniser.old recogniser.new }
    ensures most { Asks R.meaning R.orderly R.tally (cost mode 144) recogniser.old recogniser.new }
    ensures deep { most_depth < way.now.depth → (result ≡ None) × (cells.new ≡ cells.old) }
{
    let mut link = start;
    for step in way.taken()?.iter().rev() {
        let top = level(cells, recogniser, mode, *step, link)?;
        link = Some(top);
    }
    Some(link)
}
