ghost use Rattle.calls.specs.Ways.{Concludes, Worked};
ghost use Rattle.calls.specs.Calls.{Called};

use crate::lending::{lent, part_of, rise};
use crate::outcome::Outcome;
use cells::cell::Cell;
use changes::change::Change;
use changes::changing::change_cells;
use monoid::recogniser::Recogniser;
use plain::call::Call;
use plain::refusal::Refusal;
use records::records::Records;

// Records what was changed in the cells; where a walk met broken cells, the records stay.
fn conclude(records: &mut Records, call: Call, change: Option<Change>, count: u64) -> Outcome
    ensures value { Concludes records.old records.new call change count result }
{
    let Some(change) = change else {
        return Outcome::dark(Some(Refusal::BrokenCells), count);
    };
    let refusal = records.commit(call, change.root, change.unused).err();
    Outcome::dark(refusal, count)
}

// Works a call that changes the tree of one sheet, makes one or frees one: copy, close, insert, strike, replace and
// recalculate.
// Records, cells and recogniser are the caller's and lent for a call, so they stand apart and not in a struct.
pub(crate) fn work<R: Recogniser>(
    records: &mut Records,
    cells: &mut [Cell<R::Element>],
    recogniser: &mut R,
    call: Call,
) -> Outcome
    ensures called { Worked call → Called R.meaning R.orderly R.tally records.old records.new cells.old cells.new recogniser.old recogniser.new call result }
{
    // No `?`: an outcome is no Result.
    if let Err(refusal) = records.admit(call) {
        return Outcome::dark(Some(refusal), 0);
    }
    let told = recogniser.asked();
    let part = part_of(records, call.tag());
    let within = lent(records, cells);
    let change = change_cells(&mut cells[..within], recogniser, part, call);
    let count = rise(told, recogniser.asked());
    conclude(records, call, change, count)
}
