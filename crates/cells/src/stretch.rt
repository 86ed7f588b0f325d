ghost use Rattle.std.specs.Prelude.{◌≡◌, nat_lt};
ghost use Rattle.std.specs.Option.{option_map};
ghost use Rattle.cells.specs.Rooted.{SizeAt, StretchAt};
ghost use Rattle.cells.specs.Descents.{most_depth, stored_size};

use crate::cell::Cell;
use crate::reach::look;

// How deep a walk goes at the most.
pub const MOST_DEPTH: usize = 24;

// Whether a walk that has passed so many cells may pass one more.
pub fn room_below(passed: usize) -> bool
    ensures value { result ≡ nat_lt passed most_depth }
{
    passed < MOST_DEPTH
}

// What is stored of the rows under a root.
#[derive(Clone, Copy)]
pub struct Stretch<E> {
    pub height: u8,
    pub size: u16,
    pub product: E,
}

impl<E: Copy> From<Cell<E>> for Stretch<E> {
    ghost from_gives = { λ cell stretch. stretch ≡ record { height = cell.height; size = cell.size; product = cell.product } };

    fn from(cell: Cell<E>) -> Stretch<E> {
        Stretch {
            height: cell.height,
            size: cell.size,
            product: cell.product,
        }
    }
}

// How many rows stand under a root; none where its cell was not handed over.
pub fn size_at<E: Copy>(cells: &[Cell<E>], root: Option<u16>) -> Option<u16>
    ensures value { SizeAt cells.now root result }
    ensures stored { result ≡ stored_size cells.now root }
{
    match root {
        None => Some(0),
        Some(place) => Some(look(cells, place)?.size),
    }
}

// The stretch under a root, where no rows have the unit as their product; none where its cell was not handed over.
pub fn stretch_at<E: Copy>(cells: &[Cell<E>], root: Option<u16>, unit: E) -> Option<Stretch<E>>
    ensures value { StretchAt cells.now root unit result }
    ensures stored { option_map (λ (s : Stretch E). s.size) result ≡ stored_size cells.now root }
{
    match root {
        None => Some(Stretch {
            height: 0,
            size: 0,
            product: unit,
        }),
        Some(place) => { look(cells, place).map(Stretch::from) }
    }
}
