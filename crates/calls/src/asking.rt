ghost use Rattle.std.specs.Prelude.{◌≡◌, ◌-◌, min};
ghost use Rattle.calls.specs.Ways.{Shows};
ghost use Rattle.calls.specs.Calls.{Called};

use crate::lending::{lent, rise};
use crate::outcome::Outcome;
use cells::cell::Cell;
use monoid::lamps::Lamps;
use monoid::recogniser::Recogniser;
use plain::call::Call;
use plain::refusal::Refusal;
use ranges::range::{range, whole};
use records::records::Records;

// A number of rows in 16 bits, as the cells count them.
fn rows(row: u32) -> u16
    ensures value { result ≡ min row 65535 }
{
    u16::try_from(row).unwrap_or(u16::MAX)
}

// The lamps of the rows that were asked about; where a walk met broken cells, none.
fn show<R: Recogniser>(recogniser: &R, image: Option<R::Element>, count: u64) -> Outcome
    ensures value { Shows R.meaning R.orderly recogniser.now image count result }
{
    let Some(image) = image else {
        return Outcome::dark(Some(Refusal::BrokenCells), count);
    };
    Outcome::lit(Lamps::of(recogniser, image), count)
}

// The lamps of all rows of a settled sheet. Their product is stored, so none is asked for.
// Records, cells and recogniser are the caller's and lent for a call, so they stand apart and not in a struct.
pub(crate) fn show_whole<R: Recogniser>(
    records: &Records,
    cells: &[Cell<R::Element>],
    recogniser: &R,
    tag: u32,
) -> Outcome
    ensures called { Called R.meaning R.orderly R.tally records.now records.now cells.now cells.now recogniser.now recogniser.now (Call.Whole tag) result }
{
    // No `?`: an outcome is no Result.
    if let Err(refusal) = records.admit(Call::Whole { tag }) {
        return Outcome::dark(Some(refusal), 0);
    }
    let within = lent(records, cells);
    let image = whole(&cells[..within], recogniser, records.root(tag));
    show(recogniser, image, 0)
}

// The lamps of the rows first to last of a settled sheet; of none where last is the one before first.
pub(crate) fn show_range<R: Recogniser>(
    records: &Records,
    cells: &[Cell<R::Element>],
    recogniser: &mut R,
    tag: u32,
    first: u32,
    last: u32,
) -> Outcome
    ensures called { Called R.meaning R.orderly R.tally records.now records.now cells.now cells.now recogniser.old recogniser.new (Call.Range tag first last) result }
{
    if let Err(refusal) = records.admit(Call::Range { tag, first, last }) {
        return Outcome::dark(Some(refusal), 0);
    }
    let told = recogniser.asked();
    let within = lent(records, cells);
    let from = rows(first.saturating_sub(1));
    let image = range(
        &cells[..within],
        recogniser,
        records.root(tag),
        from,
        rows(last),
    );
    let count = rise(told, recogniser.asked());
    show(recogniser, image, count)
}
