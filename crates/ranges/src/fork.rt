ghost use Rattle.std.specs.Prelude.{◌≡◌, ◌-◌, ◌<◌};
ghost use Rattle.ranges.specs.Descents.{forked};
ghost use Rattle.ranges.specs.Parts.{Forks};

use cells::cell::Cell;
use cells::reach::look;
use cells::stretch::{MOST_DEPTH, size_at};

// A row of a range, and how many rows of the range stand before and behind it in its subtree.
#[derive(Clone, Copy)]
pub struct Fork {
    pub place: u16,
    pub before: u16,
    pub behind: u16,
}

// The rows that are left of so many, past those before a row and the row itself.
pub(crate) fn past(rows: u16, before: u16) -> u16
    requires { before < rows }
    ensures value { result ≡ rows - before - 1 }
{
    rows - (before + 1)
}

// The row of a range that stands highest, where the range has rows: those from `first` on and before `last`.
pub(crate) fn find_fork<E: Copy>(
    cells: &[Cell<E>],
    root: Option<u16>,
    first: u16,
    last: u16,
) -> Option<Fork>
    ensures value { Forks cells.now root first last result }
    ensures exact { result ≡ forked cells.now root first last }
{
    let mut at = root;
    let mut from = first;
    let mut to = last;
    // A loop of its own: the walks differ in what they carry down and in where they stop.
    for _ in 0..MOST_DEPTH {
        let place = at?;
        let cell = look(cells, place)?;
        let before = size_at(cells, cell.left)?;
        if to <= before {
            at = cell.left;
            continue;
        }
        if from <= before {
            return Some(Fork {
                place,
                before: before - from,
                behind: past(to, before),
            });
        }
        from = past(from, before);
        to = past(to, before);
        at = cell.right;
    }
    None
}
