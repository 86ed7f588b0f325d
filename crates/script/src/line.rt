ghost use Rattle.std.specs.Prelude.{◌≡◌, ◌≤◌, length};
ghost use Rattle.script.specs.Lines.{lines, first_line, other_lines, Passed};
ghost use Rattle.script.specs.Seen.{seen};
ghost use Rattle.script.specs.Said.{said};
ghost use Rattle.script.specs.Whole.{WholeLine};
ghost use Rattle.script.specs.Faithful.{Faithful};
ghost use Rattle.script.specs.Questions.{questions, first_fault, fault_in};

use crate::apart::Line;
use crate::cursor::Cursor;
use crate::fault::Fault;
use crate::guard::{NEWLINE, narrow};
use plain::call::Call;

// Takes apart the line at the cursor, of that number; the cursor then stands past the line, however it ended. That its end
// stays is a clause of its own, here and below: what it shows does not tell where it ends.
pub fn next_line(script: &[u8], cursor: &mut Cursor, number: u32) -> Result<Call, Fault>
    ensures value { result ≡ said number (first_line (seen script.now cursor.old)) }
    ensures first { fault_in result ≡ first_fault (questions number (first_line (seen script.now cursor.old))) }
    ensures faithful { Faithful number (first_line (seen script.now cursor.old)) result }
    ensures fields { WholeLine (first_line (seen script.now cursor.old)) }
    ensures after { Passed (seen script.now cursor.old) (seen script.now cursor.new) }
    ensures same { cursor.new.end ≡ cursor.old.end }
{
    read_line(script, cursor, number)
}

// Takes the line apart under a guard, so that the cursor is let go past it on every way out.
fn read_line(script: &[u8], cursor: &mut Cursor, number: u32) -> Result<Call, Fault>
    ensures value { result ≡ said number (first_line (seen script.now cursor.old)) }
    ensures after { seen script.now cursor.new ≡ other_lines (seen script.now cursor.old) }
    ensures same { cursor.new.end ≡ cursor.old.end }
{
    let guard = narrow(script, cursor);
    let text = guard.line(script);
    Line { text, number }.take_apart()
}

// How many lines a script has.
pub fn count_lines(script: &[u8]) -> usize
    ensures value { result ≡ length (lines script.now) }
    ensures bound { result ≤ length script.now }
{
    script.split_inclusive(|byte| *byte == NEWLINE).count()
}

// Passes over the line at the cursor.
pub fn skip_line(script: &[u8], cursor: &mut Cursor)
    ensures after { seen script.now cursor.new ≡ other_lines (seen script.now cursor.old) }
    ensures same { cursor.new.end ≡ cursor.old.end }
{
    let _guard = narrow(script, cursor);
}
