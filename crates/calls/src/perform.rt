ghost use Rattle.calls.specs.Calls.{Called};
ghost use Rattle.calls.specs.Runs.{GoesOn};

use crate::asking::{show_range, show_whole};
use crate::noting::note;
use crate::outcome::Outcome;
use crate::working::work;
use cells::cell::Cell;
use monoid::recogniser::Recogniser;
use plain::call::Call;
use records::records::Records;

// Works a call, whichever it is, on records, cells and recogniser.
// Records, cells and recogniser are the caller's and lent for a call, so they stand apart and not in a struct.
pub fn perform<R: Recogniser>(
    records: &mut Records,
    cells: &mut [Cell<R::Element>],
    recogniser: &mut R,
    call: Call,
) -> Outcome
    ensures called { Called R.meaning R.orderly R.tally records.old records.new cells.old cells.new recogniser.old recogniser.new call result }
    ensures runs { GoesOn R.meaning R.orderly R.tally records.old records.new cells.old cells.new recogniser.old recogniser.new call result }
{
    dispatch(records, cells, recogniser, call)
}

// Each call its own way: on the records alone, on the tree of a sheet, or as a question.
fn dispatch<R: Recogniser>(
    records: &mut Records,
    cells: &mut [Cell<R::Element>],
    recogniser: &mut R,
    call: Call,
) -> Outcome
    ensures called { Called R.meaning R.orderly R.tally records.old records.new cells.old cells.new recogniser.old recogniser.new call result }
{
    match call {
        Call::Open { .. } | Call::Rename { .. } | Call::Pause { .. } => {
            note(records, cells, recogniser, call)
        }
        Call::Whole { tag } => show_whole(records, cells, recogniser, tag),
        Call::Range { tag, first, last } => {
            show_range(records, cells, recogniser, tag, first, last)
        }
        Call::Copy { .. }
        | Call::Close { .. }
        | Call::Insert { .. }
        | Call::Strike { .. }
        | Call::Replace { .. }
        | Call::Recalculate { .. } => work(records, cells, recogniser, call),
    }
}
