ghost use Rattle.std.specs.Prelude.{◌≡◌, ◌+◌, ◌-◌, ◌≤◌, min, true, length};
ghost use Rattle.listing.specs.Answers.{bytes_of};
ghost use Rattle.listing.specs.Listings.{run, lamps_by};
ghost use Rattle.listing.specs.Ends.{Ends};
ghost use Rattle.listing.specs.Listed.{Listed};
ghost use Rattle.listing.specs.Outputs.{overwrite, has_room};
ghost use Rattle.runs.specs.Told.{Told};

use crate::line::work_line;
use book::book::Book;
use cells::cell::Cell;
use listing::answer::{Answer, has_room};
use listing::ending::{Ending, is_workable};
use monoid::recogniser::Recogniser;
use script::cursor::Cursor;

// Cells and recogniser are the caller's and lent for a call, so they stand apart.

// Runs a script on a book of its own over the cells, and writes an answer line to each of its lines from the start of
// the output on. Answers the number of its ending, the lines worked, and the bytes written: three numbers, as the format
// tells how a run ended.
pub fn run_script<R: Recogniser>(
    script: &[u8],
    cells: &mut [Cell<R::Element>],
    recogniser: &mut R,
    out: &mut [u8],
) -> (u32, u32, usize)
    ensures told { Told R.meaning R.orderly R.tally script.now cells.old cells.new recogniser.old recogniser.new out.old out.new result }
    ensures ends { Ends (lamps_by (R.meaning recogniser.old)) (min (length cells.old) 4096) (length out.old) script.now result }
    ensures listed { Listed script.now }
    ensures bytes { R.orderly recogniser.old → out.new ≡ overwrite out.old 0 (run (lamps_by (R.meaning recogniser.old)) (min (length cells.old) 4096) (length out.old) script.now).bytes }
{
    if !is_workable(script.len()) {
        return (Ending::ScriptTooLong.number(), 0, 0);
    }
    let mut book = Book::create(cells);
    let mut cursor = Cursor::over(script);
    let mut lines: u32 = 0;
    let mut written: usize = 0;
    // The cursor says where the lines end, and their number is answered, so this counts them and is no for.
    while !cursor.is_done(script) {
        if !has_room(out.len().saturating_sub(written)) {
            return (Ending::OutputFull.number(), lines, written);
        }
        lines += 1;
        let worked = work_line(script, &mut cursor, &mut book, cells, recogniser, lines);
        written = write_answer(Answer::to(lines, worked), out, written);
    }
    (Ending::Complete.number(), lines, written)
}

// Writes an answer where there is room, and answers the place past it.
fn write_answer(answer: Answer, out: &mut [u8], written: usize) -> usize
    requires room { has_room (length out.old - written) ≡ true }
    ensures value { result ≡ written + length (bytes_of answer) }
    ensures after { out.new ≡ overwrite out.old written (bytes_of answer) }
    ensures bound { result ≤ length out.old }
{
    answer.write(out, written).unwrap_or(written)
}
