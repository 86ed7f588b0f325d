ghost use Rattle.std.specs.Prelude.{◌≡◌};
ghost use Rattle.whole.specs.CopyRuns.{CopiesNext};
ghost use Rattle.whole.specs.Descents.{ranked_cell, Unreached};
ghost use Rattle.whole.specs.Copying.{PopsLike, TakesSides, OpensRanked, relinked, WritesCopy, CopiesRows, Copies};

use crate::ranks::find_ranked;
use cells::cell::Cell;
pub use cells::links::Links;
use cells::reach::{look, put};
use cells::stretch::size_at;
use unused::list::{Taken, Unused, enough_unused, take_cell};
use unused::pile::Pile;

// The root of a copy, and the cells that are still unused.
#[derive(Clone, Copy)]
pub struct Copied {
    pub root: Option<u16>,
    pub unused: Unused,
}

// Takes the top off the pile where the source has a side.
fn pop_like(pile: &mut Pile, side: Option<u16>) -> Option<Option<u16>>
    ensures value { PopsLike pile.old pile.new side result }
{
    match side {
        None => Some(None),
        Some(_) => Some(Some(pile.pop()?)),
    }
}

// The copies of both sides of a row.
fn take_sides<E: Copy>(pile: &mut Pile, cell: Cell<E>) -> Option<Links>
    ensures value { TakesSides pile.old pile.new cell.left cell.right result }
{
    let right = pop_like(pile, cell.right)?;
    let left = pop_like(pile, cell.left)?;
    Some(Links { left, right })
}

// The cell of the row of a rank.
fn open_ranked<E: Copy>(cells: &[Cell<E>], root: Option<u16>, rank: u16) -> Option<Cell<E>>
    ensures value { OpensRanked cells.now root rank result }
    ensures exact { result ≡ ranked_cell cells.now root rank }
{
    let place = find_ranked(cells, root, rank)?;
    look(cells, place)
}

// The cell of a row with other links.
fn relink<E: Copy>(cell: Cell<E>, sides: Links) -> Cell<E>
    ensures value { result ≡ relinked cell sides }
{
    Cell {
        left: sides.left,
        right: sides.right,
        ..cell
    }
}

// Writes a row with other links into the first unused cell.
fn write_copy<E: Copy>(
    cells: &mut [Cell<E>],
    unused: Unused,
    cell: Cell<E>,
    sides: Links,
) -> Option<Taken>
    ensures value { WritesCopy cells.old cells.new unused.first cell sides result }
{
    let taken = take_cell(cells, unused)?;
    put(cells, taken.place, relink(cell, sides));
    Some(taken)
}

// Copies the row of a rank, the rows before it being copied; gives the cells that are still unused.
fn copy_next<E: Copy>(
    cells: &mut [Cell<E>],
    pile: &mut Pile,
    unused: Unused,
    root: Option<u16>,
    rank: u16,
) -> Option<Unused>
    ensures value { CopiesNext cells.old cells.new pile.old pile.new unused.first root rank result }
    ensures unreached { Unreached cells.old cells.new root rank result }
{
    let cell = open_ranked(cells, root, rank)?;
    let sides = take_sides(pile, cell)?;
    let taken = write_copy(cells, unused, cell, sides)?;
    pile.push(Some(taken.place))?;
    Some(taken.rest)
}

// Copies so many rows of the tree under a root, rank by rank.
fn copy_rows<E: Copy>(
    cells: &mut [Cell<E>],
    unused: Unused,
    root: Option<u16>,
    rows: u16,
) -> Option<Copied>
    ensures value { CopiesRows cells.old cells.new unused.first root rows result }
{
    let mut pile = Pile::empty();
    let mut rest = unused;
    for done in 0..rows {
        rest = copy_next(cells, &mut pile, rest, root, done + 1)?;
    }
    let top = pop_like(&mut pile, root)?;
    Some(Copied {
        root: top,
        unused: rest,
    })
}

// Copies the tree under a root into unused cells, with its stored products; none where there are too few.
pub fn copy<E: Copy>(cells: &mut [Cell<E>], unused: Unused, root: Option<u16>) -> Option<Copied>
    ensures value { Copies cells.old cells.new unused.first root result }
{
    let rows = size_at(cells, root)?;
    if !enough_unused(cells, unused, rows) {
        return None;
    }
    copy_rows(cells, unused, root, rows)
}
