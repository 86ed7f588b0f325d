ghost use Rattle.std.specs.Prelude.{◌≡◌, ◌&&◌};
ghost use Rattle.unused.specs.Descents.{low, falling, StaysSteep, StaysHigh};
ghost use Rattle.unused.specs.Freeing.{FreesNext, Frees};

use crate::list::{Unused, give_cell};
use crate::pile::Pile;
use cells::cell::Cell;
use cells::reach::look;
use cells::stretch::{MOST_DEPTH, size_at};

// Whether the cell at a link, if there is one, stores a height from 1 to so many.
fn is_low<E: Copy>(cells: &[Cell<E>], link: Option<u16>, most: usize) -> bool
    ensures value { result ≡ low cells.now link most }
{
    match link {
        None => true,
        Some(place) => match look(cells, place) {
            None => false,
            Some(cell) => 0 < cell.height && usize::from(cell.height) <= most,
        },
    }
}

// Whether both sides of a row store lower heights than it does. Where they do at every row, no way down is longer than
// the height of its root.
fn falls<E: Copy>(cells: &[Cell<E>], cell: Cell<E>) -> bool
    ensures value { result ≡ falling cells.now cell }
{
    let most = usize::from(cell.height.saturating_sub(1));
    is_low(cells, cell.left, most) && is_low(cells, cell.right, most)
}

// Gives the cell on top back, and puts its two sides on the pile, where they are lower.
#[tactic(auto, using(crate::proofs::Emptying::next_done))]
fn free_next<E: Copy>(cells: &mut [Cell<E>], pile: &mut Pile, unused: Unused) -> Option<Unused>
    ensures value { FreesNext cells.old cells.new pile.old pile.new unused.first result }
    ensures steep { StaysSteep cells.old cells.new pile.old result }
{
    let place = pile.pop()?;
    let cell = look(cells, place)?;
    if !falls(cells, cell) {
        return None;
    }
    pile.push(cell.right)?;
    pile.push(cell.left)?;
    give_cell(cells, unused, place)
}

// Gives the cells of the tree under a root back to the unused ones; none where the walk leaves the cells or goes too deep.
pub fn free_tree<E: Copy>(
    cells: &mut [Cell<E>],
    unused: Unused,
    root: Option<u16>,
) -> Option<Unused>
    ensures value { Frees cells.old cells.new unused.first root result }
    ensures high { StaysHigh cells.old cells.new root result }
{
    if !is_low(cells, root, MOST_DEPTH) {
        return None;
    }
    let rows = size_at(cells, root)?;
    let mut pile = Pile::empty();
    pile.push(root)?;
    let mut last = unused;
    for _ in 0..rows {
        last = free_next(cells, &mut pile, last)?;
    }
    Some(last)
}
