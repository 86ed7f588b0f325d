ghost use Rattle.std.specs.Prelude.{◌≡◌, ℕ, ◌-◌, min};
ghost use Rattle.monoid.specs.Meaning.{Meaning};
ghost use Rattle.changes.specs.Changes.{CallChanges, ChangesCells, mode_in};
ghost use Rattle.changes.specs.Costs.{AsksNothing};

use crate::change::{Change, Part};
use cells::cell::Cell;
use cells::mode::Mode;
use edits::insert::insert;
use edits::replace::replace;
use edits::strike::strike;
use monoid::recogniser::Recogniser;
use plain::call::Call;
use plain::state::State;
use rows::kind::Kind;
use unused::freeing::free_tree;
use unused::list::{give_cell, take_cell};
use whole::copying::copy;
use whole::renewing::recompute;

// How many rows stand before a row, which is counted from 1.
fn before(row: u32) -> u16
    ensures value { result ≡ min (row - 1) 65535 }
{
    u16::try_from(row.saturating_sub(1)).unwrap_or(u16::MAX)
}

// Edits of a settled sheet ask for the products that they make stale, and edits of a paused one ask for none.
// No `From`: the state and the mode are types of other crates.
fn mode(state: State) -> Mode
    ensures value { result ≡ mode_in state }
{
    match state {
        State::Settled => Mode::Asking,
        State::Paused => Mode::Quiet,
    }
}

// Cells and recogniser are the caller's and lent for a call, so they stand apart.

// Makes a row of a kind the one of that number, in an unused cell.
pub fn insert_row<R: Recogniser>(
    cells: &mut [Cell<R::Element>],
    recogniser: &mut R,
    part: Part,
    row: u32,
    kind: Kind,
) -> Option<Change>
    ensures changes { (tag : ℕ) → CallChanges R.meaning R.orderly R.tally recogniser.old recogniser.new cells.old cells.new part (Call.Insert tag row kind) result }
{
    let taken = take_cell(cells, part.unused())?;
    let root = insert(
        cells,
        recogniser,
        mode(part.state),
        part.root,
        before(row),
        kind,
        taken.place,
    )?;
    Some(Change::new(root, taken.rest))
}

// Takes the row of that number out, and its cell back to the unused ones.
pub fn strike_row<R: Recogniser>(
    cells: &mut [Cell<R::Element>],
    recogniser: &mut R,
    part: Part,
    row: u32,
) -> Option<Change>
    ensures changes { (tag : ℕ) → CallChanges R.meaning R.orderly R.tally recogniser.old recogniser.new cells.old cells.new part (Call.Strike tag row) result }
{
    let struck = strike(cells, recogniser, mode(part.state), part.root, before(row))?;
    let unused = give_cell(cells, part.unused(), struck.freed)?;
    Some(Change::new(struck.root, unused))
}

// Gives the row of that number another kind.
pub fn replace_row<R: Recogniser>(
    cells: &mut [Cell<R::Element>],
    recogniser: &mut R,
    part: Part,
    row: u32,
    kind: Kind,
) -> Option<Change>
    ensures changes { (tag : ℕ) → CallChanges R.meaning R.orderly R.tally recogniser.old recogniser.new cells.old cells.new part (Call.Replace tag row kind) result }
{
    let root = replace(
        cells,
        recogniser,
        mode(part.state),
        part.root,
        before(row),
        kind,
    )?;
    Some(Change::new(Some(root), part.unused()))
}

// Computes every stored product anew.
pub fn renew_rows<R: Recogniser>(
    cells: &mut [Cell<R::Element>],
    recogniser: &mut R,
    part: Part,
) -> Option<Change>
    ensures changes { (tag : ℕ) → CallChanges R.meaning R.orderly R.tally recogniser.old recogniser.new cells.old cells.new part (Call.Recalculate tag) result }
{
    recompute(cells, recogniser, part.root)?;
    Some(Change::new(part.root, part.unused()))
}

// Copies the tree into unused cells, with its stored products. It asks no recogniser.
pub fn copy_rows<E: Copy>(cells: &mut [Cell<E>], part: Part) -> Option<Change>
    ensures value { (m : Meaning E) (told tag new : ℕ) → ChangesCells m (Unit {0}) told told cells.old cells.new part (Call.Copy tag new) result }
{
    let copied = copy(cells, part.unused(), part.root)?;
    Some(Change::new(copied.root, copied.unused))
}

// Gives the cells of the tree back to the unused ones. It asks no recogniser.
pub fn free_rows<E: Copy>(cells: &mut [Cell<E>], part: Part) -> Option<Change>
    ensures value { (m : Meaning E) (told tag : ℕ) → ChangesCells m (Unit {0}) told told cells.old cells.new part (Call.Close tag) result }
{
    let unused = free_tree(cells, part.unused(), part.root)?;
    Some(Change::new(None, unused))
}

// What a call does to the cells: none where they are broken, or where it is a call that changes no cell.
pub fn change_cells<R: Recogniser>(
    cells: &mut [Cell<R::Element>],
    recogniser: &mut R,
    part: Part,
    call: Call,
) -> Option<Change>
    ensures changes { CallChanges R.meaning R.orderly R.tally recogniser.old recogniser.new cells.old cells.new part call result }
    ensures unasked { AsksNothing call → recogniser.new ≡ recogniser.old }
{
    match call {
        Call::Copy { .. } => copy_rows(cells, part),
        Call::Close { .. } => free_rows(cells, part),
        Call::Insert { row, kind, .. } => insert_row(cells, recogniser, part, row, kind),
        Call::Strike { row, .. } => strike_row(cells, recogniser, part, row),
        Call::Replace { row, kind, .. } => replace_row(cells, recogniser, part, row, kind),
        Call::Recalculate { .. } => renew_rows(cells, recogniser, part),
        Call::Open { .. }
        | Call::Rename { .. }
        | Call::Whole { .. }
        | Call::Range { .. }
        | Call::Pause { .. } => None,
    }
}
