ghost use Rattle.std.specs.Prelude.{◌≡◌, ◌≤◌, length, ◌==◌};
ghost use Rattle.std.specs.List.{position_or_len};
ghost use Rattle.script.specs.Lines.{first_line, other_lines};
ghost use Rattle.script.specs.Seen.{seen, Within, behind};
ghost use Rattle.script.specs.Guards.{shown, left};

use crate::cursor::{Cursor, next_of};

// The byte that ends a line.
pub(crate) const NEWLINE: u8 = 10;

// Narrows a cursor to one line; let go, it leaves the cursor past that line, with the end that it had. It borrows the cursor
// alone, and nothing moves that while the guard lives: no part of it can be reached, and what it shows is only read. The
// crate's own, since a guard that another crate forgot would leave the cursor at its line.
pub(crate) struct LineGuard<'a> {
    cursor: &'a mut Cursor,
    old_end: usize,
}

impl LineGuard<'_> {
    // The line, in the script that it was found in: no byte past it.
    pub(crate) fn line<'s>(&self, script: &'s [u8]) -> &'s [u8]
        ensures value { result.now ≡ shown script.now self.now }
    {
        self.cursor.shown(script)
    }
}

impl Drop for LineGuard<'_> {
    fn drop(self)
        ensures after { self.exit.0.now ≡ left self.entry }
    {
        self.cursor.place = next_of(self.cursor.end, self.old_end);
        self.cursor.end = self.old_end;
        let LineGuard {
            cursor: _,
            old_end: _,
        } = self;
    }
}

// Narrows the cursor to the line that it stands at: it shows that line and nothing past it, and where the guard lets
// it go it shows the rest.
pub(crate) fn narrow<'a>(script: &[u8], cursor: &'a mut Cursor) -> LineGuard<'a>
    ensures lends { result.cursor.ghost_name ≡ cursor.entry.ghost_name }
    ensures within { Within script.now result.cursor.now }
    ensures line { shown script.now result ≡ first_line (seen script.now cursor.old) }
    ensures rest { seen script.now (left result) ≡ other_lines (seen script.now cursor.old) }
    ensures end { (left result).end ≡ cursor.old.end }
{
    let old_end = cursor.end;
    *cursor = at_line(script, cursor);
    LineGuard { cursor, old_end }
}

// The cursor that shows the line that a cursor stands at, and nothing past it.
fn at_line(script: &[u8], cursor: &Cursor) -> Cursor
    ensures within { Within script.now result }
    ensures line { seen script.now result ≡ first_line (seen script.now cursor.now) }
    ensures rest { seen script.now (behind result.end cursor.now.end) ≡ other_lines (seen script.now cursor.now) }
{
    let inside = cursor.inside(script);
    let stop = inside.place + line_length(&script[inside.place..inside.end]);
    Cursor {
        place: inside.place,
        end: stop,
    }
}

// How many bytes stand before the first that ends a line.
fn line_length(text: &[u8]) -> usize
    ensures value { result ≡ position_or_len (λ b. b == 10) text.now }
    ensures bound { result ≤ length text.now }
{
    text.iter()
        .position(|byte| *byte == NEWLINE)
        .unwrap_or(text.len())
}
