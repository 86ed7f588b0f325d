ghost use Rattle.calls.specs.Calls.{Called};
ghost use Rattle.calls.specs.Runs.{GoesOn};
ghost use Rattle.script.specs.Written.{Sayable};

use book::book::Book;
use calls::outcome::Outcome;
use cells::cell::Cell;
use monoid::recogniser::Recogniser;
use plain::call::Call;

// Works a call that a line of a script said. No line says a pause or a recalculation, so these do nothing here. By the
// book's own calls, whose contracts these lines show at work; book, cells and recogniser are lent for a call.
pub(crate) fn call_book<R: Recogniser>(
    book: &mut Book,
    cells: &mut [Cell<R::Element>],
    recogniser: &mut R,
    call: Call,
) -> Outcome
    ensures called { Sayable call → Called R.meaning R.orderly R.tally book.old.records book.new.records cells.old cells.new recogniser.old recogniser.new call result }
    ensures runs { Sayable call → GoesOn R.meaning R.orderly R.tally book.old.records book.new.records cells.old cells.new recogniser.old recogniser.new call result }
{
    match call {
        Call::Open { tag } => book.open(cells, recogniser, tag),
        Call::Copy { tag, new } => book.copy(cells, recogniser, tag, new),
        Call::Rename { tag, new } => book.rename(cells, recogniser, tag, new),
        Call::Close { tag } => book.close(cells, recogniser, tag),
        Call::Insert { tag, row, kind } => book.insert(cells, recogniser, tag, row, kind),
        Call::Strike { tag, row } => book.strike(cells, recogniser, tag, row),
        Call::Replace { tag, row, kind } => book.replace(cells, recogniser, tag, row, kind),
        Call::Whole { tag } => book.whole(cells, recogniser, tag),
        Call::Range { tag, first, last } => book.range(cells, recogniser, tag, first, last),
        Call::Pause { .. } | Call::Recalculate { .. } => Outcome::dark(None, 0),
    }
}
