ghost use Rattle.script.specs.Lines.{first_line, Passed};
ghost use Rattle.script.specs.Seen.{seen};
ghost use Rattle.script.specs.Said.{said};
ghost use Rattle.runs.specs.Answers.{LineWorked};

use crate::calling::call_book;
use book::book::Book;
use cells::cell::Cell;
use monoid::lamps::Lamps;
use monoid::recogniser::Recogniser;
use script::cursor::Cursor;
use script::fault::{Cause, Fault};
use script::line::next_line;

// Takes the line at the cursor apart and works what it says. A fault of the line goes on up as it is, and a refusal by the
// book as a fault of the line. Book, cells and recogniser are lent for a line.
pub(crate) fn work_line<R: Recogniser>(
    script: &[u8],
    cursor: &mut Cursor,
    book: &mut Book,
    cells: &mut [Cell<R::Element>],
    recogniser: &mut R,
    line: u32,
) -> Result<Lamps, Fault>
    ensures value { LineWorked R.meaning R.orderly R.tally book.old.records book.new.records cells.old cells.new recogniser.old recogniser.new (said line (first_line (seen script.now cursor.old))) line result }
    ensures after { Passed (seen script.now cursor.old) (seen script.now cursor.new) }
{
    let call = next_line(script, cursor, line)?;
    let outcome = call_book(book, cells, recogniser, call);
    match outcome.refusal {
        Some(refusal) => Err(Fault::of_line(Cause::Refused(refusal), line)),
        None => Ok(outcome.lamps),
    }
}
