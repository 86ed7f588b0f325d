ghost use Rattle.std.specs.Prelude.{◌≡◌, ◌+◌, ◌-◌, ◌<◌, ◌≤◌, [], ◌∷◌, length, if◌then◌else◌, Some, None, MatchOption};
ghost use Rattle.std.specs.Option.{OnSome};
ghost use Rattle.script.specs.Lines.{lines};
ghost use Rattle.script.specs.Questions.{fault_in};
ghost use Rattle.listing.specs.Answers.{text_of, bytes_of, answer_to};
ghost use Rattle.listing.specs.Tells.{Tells, fault_told};
ghost use Rattle.listing.specs.Outputs.{overwrite, has_room};

use crate::writer::{write_lamps, write_mark, write_part};
use monoid::lamps::Lamps;
use script::fault::Fault;

// How many bytes of the output are to be free before each line.
const ROOM: usize = 96;

// The answer to a line: the line's number, the number it is answered with, the place of a faulty field, and lamps. The
// numbers are those that the format writes, 0 for none among them.
#[derive(Clone, Copy)]
pub struct Answer {
    pub line: u32,
    pub number: u32,
    pub field: u32,
    pub lamps: Lamps,
}

impl Answer {
    // The answer to a line that was worked, or that has a fault: cause, line and field of which are all read back from it.
    pub fn to(line: u32, worked: Result<Lamps, Fault>) -> Answer
        ensures value { result ≡ answer_to line worked }
        ensures told { fault_told result ≡ fault_in worked }
    {
        match worked {
            Ok(lamps) => Answer {
                line,
                number: 0,
                field: 0,
                lamps,
            },
            Err(fault) => Answer {
                line: fault.line,
                number: fault.cause.number(),
                field: fault.field,
                lamps: Lamps::none(),
            },
        }
    }

    // Writes the answer at a place of the output, and answers the place past it; writes nothing where too little is
    // free.
    pub fn write(self, out: &mut [u8], at: usize) -> Option<usize>
        ensures value { result ≡ (if has_room (length out.old - at) then Some (at + length (bytes_of self)) else None) }
        ensures after { out.new ≡ (if has_room (length out.old - at) then overwrite out.old at (bytes_of self) else out.old) }
        ensures bound { MatchOption result (length out.old - at < 96) (λ place. place ≤ at + 96) }
        ensures items { lines (bytes_of self) ≡ text_of self ∷ [] }
        ensures tells { OnSome result (Tells (text_of self) self) }
    {
        if !has_room(out.len().saturating_sub(at)) {
            return None;
        }
        Some(write_line(out, at, self))
    }
}

// Whether so many free bytes are enough for a line.
pub fn has_room(free: usize) -> bool
    ensures value { result ≡ has_room free }
{
    free >= ROOM
}

// Writes an answer where there is room.
fn write_line(out: &mut [u8], at: usize, answer: Answer) -> usize
    requires room { at + 96 ≤ length out.old }
    ensures value { result ≡ at + length (bytes_of answer) }
    ensures after { out.new ≡ overwrite out.old at (bytes_of answer) }
    ensures bound { result ≤ at + 96 }
    ensures tells { Tells (text_of answer) answer }
{
    let number = write_part(out, at, answer.line);
    let field = write_part(out, number, answer.number);
    let lamps = write_part(out, field, answer.field);
    let end = write_lamps(out, lamps, &answer.lamps);
    write_mark(out, end, 10)
}
