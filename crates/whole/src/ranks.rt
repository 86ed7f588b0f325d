ghost use Rattle.std.specs.Prelude.{◌≡◌};
ghost use Rattle.whole.specs.Descents.{ranked};
ghost use Rattle.whole.specs.Ranks.{FindsRanked};

use cells::cell::Cell;
use cells::reach::look;
use cells::stretch::{MOST_DEPTH, size_at};

// The place of the row of a rank, in the order from 1 where a row comes after both its sides.
pub(crate) fn find_ranked<E: Copy>(cells: &[Cell<E>], root: Option<u16>, rank: u16) -> Option<u16>
    ensures value { FindsRanked cells.now root rank result }
    ensures exact { result ≡ ranked cells.now root rank }
{
    let mut at = root;
    let mut rest = rank;
    // A loop of its own: the walks differ in what they carry down and in where they stop.
    for _ in 0..MOST_DEPTH {
        let place = at?;
        let cell = look(cells, place)?;
        if rest == cell.size {
            return Some(place);
        }
        let before = size_at(cells, cell.left)?;
        if rest <= before {
            at = cell.left;
            continue;
        }
        rest -= before;
        at = cell.right;
    }
    None
}
