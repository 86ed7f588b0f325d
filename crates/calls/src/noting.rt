ghost use Rattle.std.specs.Prelude.{◌≡◌, Bool};
ghost use Rattle.calls.specs.Ways.{Noting};
ghost use Rattle.calls.specs.Calls.{Works, Called, Answered, Noted};
ghost use Rattle.calls.specs.Runs.{GoesOn};

use crate::outcome::Outcome;
use cells::cell::Cell;
use monoid::recogniser::Recogniser;
use plain::call::Call;
use records::records::Records;

// A new sheet, settled and with no row.
// Records, cells and recogniser are the caller's and lent for a call, so they stand apart and not in a struct.
pub fn open<R: Recogniser>(
    records: &mut Records,
    cells: &[Cell<R::Element>],
    recogniser: &R,
    tag: u32,
) -> Outcome
    ensures noted { Noted records.old records.new (Call.Open tag) result }
    ensures answered { Answered records.old records.new (Call.Open tag) result }
    ensures called { Called R.meaning R.orderly R.tally records.old records.new cells.now cells.now recogniser.now recogniser.now (Call.Open tag) result }
    ensures works { (lawful : Bool) → Works lawful (R.meaning recogniser.now) records.old records.new cells.now cells.now (Call.Open tag) result }
    ensures runs { GoesOn R.meaning R.orderly R.tally records.old records.new cells.now cells.now recogniser.now recogniser.now (Call.Open tag) result }
{
    note(records, cells, recogniser, Call::Open { tag })
}

// Another tag for a settled sheet.
pub fn rename<R: Recogniser>(
    records: &mut Records,
    cells: &[Cell<R::Element>],
    recogniser: &R,
    tag: u32,
    new: u32,
) -> Outcome
    ensures noted { Noted records.old records.new (Call.Rename tag new) result }
    ensures answered { Answered records.old records.new (Call.Rename tag new) result }
    ensures called { Called R.meaning R.orderly R.tally records.old records.new cells.now cells.now recogniser.now recogniser.now (Call.Rename tag new) result }
    ensures works { (lawful : Bool) → Works lawful (R.meaning recogniser.now) records.old records.new cells.now cells.now (Call.Rename tag new) result }
    ensures runs { GoesOn R.meaning R.orderly R.tally records.old records.new cells.now cells.now recogniser.now recogniser.now (Call.Rename tag new) result }
{
    note(records, cells, recogniser, Call::Rename { tag, new })
}

// Pauses a settled sheet: until it is recalculated, its edits ask for no product.
pub fn pause<R: Recogniser>(
    records: &mut Records,
    cells: &[Cell<R::Element>],
    recogniser: &R,
    tag: u32,
) -> Outcome
    ensures noted { Noted records.old records.new (Call.Pause tag) result }
    ensures answered { Answered records.old records.new (Call.Pause tag) result }
    ensures called { Called R.meaning R.orderly R.tally records.old records.new cells.now cells.now recogniser.now recogniser.now (Call.Pause tag) result }
    ensures works { (lawful : Bool) → Works lawful (R.meaning recogniser.now) records.old records.new cells.now cells.now (Call.Pause tag) result }
    ensures runs { GoesOn R.meaning R.orderly R.tally records.old records.new cells.now cells.now recogniser.now recogniser.now (Call.Pause tag) result }
{
    note(records, cells, recogniser, Call::Pause { tag })
}

// Works a call that changes the records alone. The cells and the recogniser are only looked at. Another call would leave its
// trees as they were, so this one is the crate's own.
pub(crate) fn note<R: Recogniser>(
    records: &mut Records,
    cells: &[Cell<R::Element>],
    recogniser: &R,
    call: Call,
) -> Outcome
    ensures noted { Noted records.old records.new call result }
    ensures answered { Answered records.old records.new call result }
    ensures called { Noting call → Called R.meaning R.orderly R.tally records.old records.new cells.now cells.now recogniser.now recogniser.now call result }
    ensures works { Noting call → (lawful : Bool) → Works lawful (R.meaning recogniser.now) records.old records.new cells.now cells.now call result }
    ensures runs { Noting call → GoesOn R.meaning R.orderly R.tally records.old records.new cells.now cells.now recogniser.now recogniser.now call result }
{
    let unused = records.unused();
    let refusal = records.commit(call, None, unused).err();
    Outcome::dark(refusal, 0)
}
