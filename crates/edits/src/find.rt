ghost use Rattle.std.specs.Prelude.{◌≡◌, ◌<◌, Some};
ghost use Rattle.cells.specs.Descents.{most_depth};
ghost use Rattle.edits.specs.Descents.{stored_fork, turn, walked, found, found_gap, found_next};
ghost use Rattle.edits.specs.Walks.{ForksAt, Turns, Walks, Finds, FindsGap, Lowers};

use cells::cell::Cell;
use cells::links::{Links, Side};
use cells::reach::look;
use cells::stretch::{MOST_DEPTH, size_at};
use climb::way::Way;

// A row of which a walk takes one side: its links, and how many rows stand on its left.
#[derive(Clone, Copy)]
pub struct Fork {
    pub links: Links,
    pub before: u16,
}

// Where a row was found: the way down to it, and its place.
#[derive(Clone, Copy)]
pub struct Found {
    pub way: Way,
    pub place: u16,
}

// What a walk looks for: the row with so many rows before it, or the gap. A value and no closure: the clauses speak of it.
#[derive(Clone, Copy, PartialEq, Eq, Debug)]
enum Aim {
    Row,
    Gap,
}

// Where a walk ended: the way down, and the place of the row there; none in a gap.
#[derive(Clone, Copy)]
struct Reached {
    way: Way,
    place: Option<u16>,
}

impl Aim {
    // The side of the row at hand on which a walk goes on, by the rows before the aim and before that row; none where
    // that row is the aim.
    fn turn(self, index: u16, before: u16) -> Option<Side>
        ensures value { Turns self index before result }
        ensures exact { result ≡ turn self index before }
    {
        match self {
            Aim::Row if index == before => None,
            Aim::Row if index < before => Some(Side::Left),
            Aim::Gap if index <= before => Some(Side::Left),
            _ => Some(Side::Right),
        }
    }
}

// The row at a place; none where a cell was not handed over.
fn fork_at<E: Copy>(cells: &[Cell<E>], place: u16) -> Option<Fork>
    ensures value { ForksAt cells.now place result }
    ensures exact { result ≡ stored_fork cells.now place }
{
    let cell = look(cells, place)?;
    let before = size_at(cells, cell.left)?;
    Some(Fork {
        links: cell.links(),
        before,
    })
}

// That a way is less deep than 24 is a clause and no invariant: its fields are open to all who fill them.

// The way to what a walk looks for, with so many rows before it; none where it meets a cell that was not handed over,
// or goes too deep.
fn walk<E: Copy>(cells: &[Cell<E>], root: Option<u16>, index: u16, aim: Aim) -> Option<Reached>
    ensures value { Walks aim cells.now root index result }
    ensures exact { result ≡ walked aim cells.now root index }
    ensures within { (w : Reached) → result ≡ Some w → w.way.depth < most_depth }
{
    let mut way = Way::new();
    let mut at = root;
    let mut rest = index;
    // A loop of its own: the walks differ in what they carry down and in where they stop.
    for _ in 0..MOST_DEPTH {
        let Some(place) = at else {
            return Some(Reached { way, place: None });
        };
        let fork = fork_at(cells, place)?;
        let Some(side) = aim.turn(rest, fork.before) else {
            return Some(Reached {
                way,
                place: Some(place),
            });
        };
        way.push(place, side);
        match side {
            Side::Left => at = fork.links.left,
            Side::Right => {
                at = fork.links.right;
                rest = rest - fork.before - 1;
            }
        }
    }
    None
}

// Where the row with so many rows before it is; none where a walk meets a cell that was not handed over, or goes too
// deep.
pub fn find<E: Copy>(cells: &[Cell<E>], root: Option<u16>, index: u16) -> Option<Found>
    ensures value { Finds cells.now root index result }
    ensures exact { result ≡ found cells.now root index }
    ensures within { (w : Found) → result ≡ Some w → w.way.depth < most_depth }
{
    let reached = walk(cells, root, index, Aim::Row)?;
    Some(Found {
        way: reached.way,
        place: reached.place?,
    })
}

// The way to the gap with so many rows before it.
pub fn find_gap<E: Copy>(cells: &[Cell<E>], root: Option<u16>, index: u16) -> Option<Way>
    ensures value { FindsGap cells.now root index result }
    ensures exact { result ≡ found_gap cells.now root index }
    ensures within { (w : Way) → result ≡ Some w → w.depth < most_depth }
{
    Some(walk(cells, root, index, Aim::Gap)?.way)
}

// Where the first row on the right of a row is, whose right link is `right`.
// A loop of its own: the walks differ in what they carry down and in where they stop.
pub fn find_next<E: Copy>(cells: &[Cell<E>], row: &Found, right: u16) -> Option<Found>
    ensures value { Lowers cells.now row.now right result }
    ensures exact { result ≡ found_next cells.now row.now right }
    ensures within { (w : Found) → result ≡ Some w → w.way.depth < most_depth }
{
    let mut way = row.way;
    way.push(row.place, Side::Right);
    let mut place = right;
    for _ in way.depth..MOST_DEPTH {
        let cell = look(cells, place)?;
        let Some(next) = cell.left else {
            return Some(Found { way, place });
        };
        way.push(place, Side::Left);
        place = next;
    }
    None
}
