ghost use Rattle.std.specs.Prelude.{◌≡◌, length, nat_lt, slice_set};
ghost use Rattle.std.specs.List.{slice_get};

use crate::cell::Cell;

// The cell at a place, if it was handed over.
pub fn look<E: Copy>(cells: &[Cell<E>], place: u16) -> Option<Cell<E>>
    ensures value { result ≡ slice_get cells.now place }
{
    cells.get(usize::from(place)).copied()
}

// Writes the cell at a place, and tells whether it was handed over; where it was not, nothing is written.
// A bool: nothing comes with it, and most callers have looked at the place before.
pub fn put<E: Copy>(cells: &mut [Cell<E>], place: u16, cell: Cell<E>) -> bool
    ensures value { result ≡ nat_lt place (length cells.old) }
    ensures after { cells.new ≡ slice_set cells.old place cell }
{
    // By its index: of a slice after `get_mut`, a proof knows the length alone.
    let within = usize::from(place) < cells.len();
    if within {
        cells[usize::from(place)] = cell;
    }
    within
}
