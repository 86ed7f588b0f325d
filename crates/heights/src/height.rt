ghost use Rattle.std.specs.Prelude.{◌≡◌, ℕ, ◌+◌, ◌^◌, ◌<◌, ◌≤◌, nat_le};
ghost use Rattle.heights.specs.Heights.{highest, Greatest, Worked, Bounds};

use cells::cell::Cell;
use cells::stretch::size_at;

// The fewest rows of a balanced tree, from those of the two heights below it.
fn fewest_over(lower: u32, higher: u32) -> u32
    requires { (lower < 2 ^ 16) × (higher < 2 ^ 16) }
    ensures value { result ≡ higher + lower + 1 }
{
    lower + higher + 1
}

// Whether there are so many rows.
fn enough(rows: u16, fewest: u32) -> bool
    ensures value { result ≡ nat_le fewest rows }
{
    fewest <= u32::from(rows)
}

// The greatest height of a balanced tree of so many rows.
pub fn most_height(rows: u16) -> u8
    ensures value { result ≡ highest rows }
    ensures greatest { Greatest rows result }
    ensures order { (n : ℕ) → n ≤ rows → highest n ≤ result }
    ensures worked { Worked }
    ensures bound { result < 24 }
{
    let mut height: u8 = 0;
    let mut fewest: u32 = 0;
    let mut next: u32 = 1;
    // A `while`: the height that it counts is the answer, and how far it goes is not known before.
    while enough(rows, next) {
        let over = fewest_over(fewest, next);
        fewest = next;
        next = over;
        height += 1;
    }
    height
}

// The greatest height of the tree under a root, by its rows; none where the root's cell was not handed over.
pub fn height_bound<E: Copy>(cells: &[Cell<E>], root: Option<u16>) -> Option<u8>
    ensures value { Bounds cells.now root result }
{
    let rows = size_at(cells, root)?;
    Some(most_height(rows))
}
