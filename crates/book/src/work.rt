ghost use Rattle.std.specs.Prelude.{◌≡◌, min, length, take, drop};
ghost use Rattle.records.specs.declared.records.Records.{Records};
ghost use Rattle.calls.specs.Calls.{Called};
ghost use Rattle.calls.specs.Runs.{GoesOn, WorkedThrough};

use crate::book::Book;
use calls::outcome::Outcome;
use calls::perform::perform;
use cells::cell::Cell;
use monoid::recogniser::Recogniser;
use plain::call::Call;

// Cells and recogniser are the caller's and lent for a call, so they stand apart.

// Creates a book over the cells and works calls on it in order, as many as there are places for their outcomes, each on
// what the one before left; answers how many. The book is let go afterwards, so a recalculation is told its tag, and no
// token is owed.
pub fn work<R: Recogniser>(
    cells: &mut [Cell<R::Element>],
    recogniser: &mut R,
    calls: &[Call],
    outcomes: &mut [Outcome],
) -> usize
    ensures value { result ≡ min (length calls.now) (length outcomes.old) }
    ensures worked { (book : Records) × WorkedThrough R.meaning R.orderly R.tally cells.old cells.new recogniser.old recogniser.new book (take result calls.now) (take result outcomes.new) }
    ensures rest { drop result outcomes.new ≡ drop result outcomes.old }
{
    let worked = calls.len().min(outcomes.len());
    let mut book = Book::create(cells);
    // By index: of a zip with `iter_mut`, a loop's invariant does not see what was written so far.
    for at in 0..worked {
        outcomes[at] = work_next(&mut book, cells, recogniser, calls[at]);
    }
    worked
}

// Works a call on what the one before left, and leaves its book, cells and recogniser to the next as they are.
fn work_next<R: Recogniser>(
    book: &mut Book,
    cells: &mut [Cell<R::Element>],
    recogniser: &mut R,
    call: Call,
) -> Outcome
    ensures called { Called R.meaning R.orderly R.tally book.old.records book.new.records cells.old cells.new recogniser.old recogniser.new call result }
    ensures runs { GoesOn R.meaning R.orderly R.tally book.old.records book.new.records cells.old cells.new recogniser.old recogniser.new call result }
{
    perform(&mut book.records, cells, recogniser, call)
}
