ghost use Rattle.std.specs.Prelude.{◌≡◌, true};
ghost use Rattle.cells.specs.Asking.{Due, cost, Asks};
ghost use Rattle.cells.specs.Mends.{Roomy, over, Mends};

use crate::cell::Cell;
use crate::links::Links;
use crate::mode::Mode;
use crate::reach::{look, put};
use crate::stretch::{Stretch, stretch_at};
use monoid::recogniser::Recogniser;
use rows::kind::Kind;

// Cells, recogniser and mode are parameters: a caller lends the slice anew to each update, and the clauses compare it
// before and after.

// A row of a tree: where it stands, and its kind.
#[derive(Clone, Copy)]
pub struct Row {
    pub place: u16,
    pub kind: Kind,
}

// What a cell stores of its stretch, anew from its kind and its two sides; a quiet edit leaves what was stored.
// Edits refresh what a cell stores here and nowhere else; recomputing a whole tree does the same in `whole::renewing`.
fn refresh<R: Recogniser>(
    recogniser: &mut R,
    mode: Mode,
    kind: Kind,
    left: Stretch<R::Element>,
    right: Stretch<R::Element>,
    stored: R::Element,
) -> R::Element
    ensures value { Due mode (R.orderly recogniser.old) → (R.meaning recogniser.old).sound left.product ≡ true → (R.meaning recogniser.old).sound right.product ≡ true → result ≡ (R.meaning recogniser.old).mul ((R.meaning recogniser.old).mul left.product ((R.meaning recogniser.old).image kind)) right.product }
    ensures asks { Asks R.meaning R.orderly R.tally (cost mode 2) recogniser.old recogniser.new }
{
    match mode {
        Mode::Asking => {
            let image = recogniser.image(kind);
            let front = recogniser.product(left.product, image);
            recogniser.product(front, right.product)
        }
        Mode::Quiet => stored,
    }
}

// The cell of a kind between two links, by the stretches that they lead to. Measures too large for a cell, which no
// tree has, are cut off.
fn cell_over<E: Copy>(
    kind: Kind,
    links: Links,
    left: Stretch<E>,
    right: Stretch<E>,
    product: E,
) -> Cell<E>
    ensures value { Roomy left right → result ≡ over kind links left right product }
{
    Cell {
        kind,
        left: links.left,
        right: links.right,
        height: left.height.max(right.height).saturating_add(1),
        size: left.size.saturating_add(right.size).saturating_add(1),
        product,
    }
}

// Writes the cell of a row between two links, and gives its place; none where a cell was not handed over.
pub fn mend<R: Recogniser>(
    cells: &mut [Cell<R::Element>],
    recogniser: &mut R,
    mode: Mode,
    row: Row,
    links: Links,
) -> Option<u16>
    ensures value { Mends (R.meaning recogniser.old) (Due mode (R.orderly recogniser.old)) cells.old cells.new row links.left links.right result }
    ensures asks { Asks R.meaning R.orderly R.tally (cost mode 2) recogniser.old recogniser.new }
{
    let stored = look(cells, row.place)?.product;
    let unit = recogniser.unit();
    let below = stretch_at(cells, links.left, unit)?;
    let above = stretch_at(cells, links.right, unit)?;
    let product = refresh(recogniser, mode, row.kind, below, above, stored);
    put(
        cells,
        row.place,
        cell_over(row.kind, links, below, above, product),
    );
    Some(row.place)
}
