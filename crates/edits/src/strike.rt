ghost use Rattle.cells.specs.Asking.{Due, cost, Asks};
ghost use Rattle.edits.specs.Descents.{found_next, freed, Refuses};
ghost use Rattle.edits.specs.Strikes.{Recasts, StrikesEnd, StrikesInner, Strikes};

use crate::find::{Found, find, find_next};
use cells::cell::Cell;
use cells::mode::Mode;
use cells::reach::{look, put};
use climb::rise::rise;
use monoid::recogniser::Recogniser;
use rows::kind::Kind;

// Cells, recogniser and mode are parameters: a caller lends the slice anew to each update, and the clauses compare it
// before and after.

// The root after a row was struck, and the place of the cell that is free now.
#[derive(Clone, Copy)]
pub struct Struck {
    pub root: Option<u16>,
    pub freed: u16,
}

// Writes a kind into the cell at a place, and nothing else.
fn recast<E: Copy>(cells: &mut [Cell<E>], place: u16, kind: Kind)
    ensures after { Recasts cells.old cells.new place kind }
{
    if let Some(cell) = look(cells, place) {
        put(cells, place, Cell { kind, ..cell });
    }
}

// Strikes a row with nothing on its right: its left side takes its place.
fn strike_end<R: Recogniser>(
    cells: &mut [Cell<R::Element>],
    recogniser: &mut R,
    mode: Mode,
    row: &Found,
    left: Option<u16>,
) -> Option<Struck>
    ensures value { StrikesEnd (R.meaning recogniser.old) (Due mode (R.orderly recogniser.old)) mode (R.tally recogniser.old) (R.tally recogniser.new) cells.old cells.new row.now left result }
    ensures asks { Asks R.meaning R.orderly R.tally (cost mode 144) recogniser.old recogniser.new }
{
    let root = rise(cells, recogniser, mode, &row.way, left)?;
    Some(Struck {
        root,
        freed: row.place,
    })
}

// Strikes a row with rows on its right: the kind of the next row goes into its cell, and the cell of the next row is
// free.
fn strike_inner<R: Recogniser>(
    cells: &mut [Cell<R::Element>],
    recogniser: &mut R,
    mode: Mode,
    row: &Found,
    right: u16,
) -> Option<Struck>
    ensures value { StrikesInner (R.meaning recogniser.old) (Due mode (R.orderly recogniser.old)) mode (R.tally recogniser.old) (R.tally recogniser.new) cells.old cells.new row.now right result }
    ensures refused { Refuses (found_next cells.old row.now right) cells.old cells.new result }
    ensures asks { Asks R.meaning R.orderly R.tally (cost mode 144) recogniser.old recogniser.new }
{
    let next = find_next(cells, row, right)?;
    let cell = look(cells, next.place)?;
    recast(cells, row.place, cell.kind);
    let root = rise(cells, recogniser, mode, &next.way, cell.right)?;
    Some(Struck {
        root,
        freed: next.place,
    })
}

// Strikes the row with so many rows before it; none where a walk meets a cell that was not handed over, or goes too
// deep.
pub fn strike<R: Recogniser>(
    cells: &mut [Cell<R::Element>],
    recogniser: &mut R,
    mode: Mode,
    root: Option<u16>,
    index: u16,
) -> Option<Struck>
    ensures value { Strikes (R.meaning recogniser.old) (Due mode (R.orderly recogniser.old)) mode (R.tally recogniser.old) (R.tally recogniser.new) cells.old cells.new root index result }
    ensures refused { Refuses (freed cells.old root index) cells.old cells.new result }
    ensures asks { Asks R.meaning R.orderly R.tally (cost mode 144) recogniser.old recogniser.new }
{
    let row = find(cells, root, index)?;
    let cell = look(cells, row.place)?;
    match cell.right {
        None => strike_end(cells, recogniser, mode, &row, cell.left),
        Some(right) => strike_inner(cells, recogniser, mode, &row, right),
    }
}
