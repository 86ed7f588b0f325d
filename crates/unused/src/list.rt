ghost use Rattle.std.specs.Prelude.{◌≡◌, ◌<◌, length, Some};
ghost use Rattle.unused.specs.Listed.{Takes, Suffices, threaded, Threads, Gives, Prepares, capacity_of};

use cells::cell::Cell;
use cells::reach::{look, put};

// How many cells are put to use at the most.
pub const MOST_CELLS: usize = 4096;

// The unused cells, from the first on: each one's left link leads to the next.
// Beside the cells and not in one value with them: a caller lends its slice anew to each call.
#[derive(Clone, Copy)]
pub struct Unused {
    pub first: Option<u16>,
}

// A cell taken out of the unused ones, and the rest of these.
#[derive(Clone, Copy)]
pub struct Taken {
    pub place: u16,
    pub rest: Unused,
}

// Takes the first of the unused cells. It writes nothing.
pub fn take_cell<E: Copy>(cells: &[Cell<E>], unused: Unused) -> Option<Taken>
    ensures value { Takes cells.now unused.first result }
{
    let place = unused.first?;
    let cell = look(cells, place)?;
    Some(Taken {
        place,
        rest: Unused { first: cell.left },
    })
}

// Whether so many cells are unused.
pub fn enough_unused<E: Copy>(cells: &[Cell<E>], unused: Unused, number: u16) -> bool
    ensures value { Suffices cells.now unused.first number result }
{
    let mut rest = unused;
    for _ in 0..number {
        let Some(taken) = take_cell(cells, rest) else {
            return false;
        };
        rest = taken.rest;
    }
    true
}

// A cell as the first of the unused ones.
fn leading<E: Copy>(cell: Cell<E>, unused: Unused) -> Cell<E>
    ensures value { result ≡ threaded unused.first cell }
{
    Cell {
        left: unused.first,
        ..cell
    }
}

// Puts a cell before the unused ones.
fn thread<E: Copy>(cells: &mut [Cell<E>], unused: Unused, place: u16) -> Unused
    requires { place < length cells.old }
    ensures value { result ≡ record { first = Some place } }
    ensures after { Threads cells.old cells.new unused.first place }
{
    let cell = cells[usize::from(place)];
    put(cells, place, leading(cell, unused));
    Unused { first: Some(place) }
}

// Gives a cell back to the unused ones; none, and nothing written, where it was not handed over.
pub fn give_cell<E: Copy>(cells: &mut [Cell<E>], unused: Unused, place: u16) -> Option<Unused>
    ensures value { Gives cells.old cells.new unused.first place result }
{
    if usize::from(place) >= cells.len() {
        return None;
    }
    Some(thread(cells, unused, place))
}

// How many of the cells are put to use: the first 4,096, or all if fewer.
pub fn capacity<E: Copy>(cells: &[Cell<E>]) -> u16
    ensures value { result ≡ capacity_of cells.now }
{
    cells.len().min(MOST_CELLS) as u16
}

// Makes all cells within the capacity unused.
pub fn make_unused<E: Copy>(cells: &mut [Cell<E>]) -> Unused
    ensures value { Prepares cells.old cells.new result.first }
{
    let mut unused = Unused { first: None };
    let end = capacity(cells);
    for place in 0..end {
        unused = thread(cells, unused, place);
    }
    unused
}
