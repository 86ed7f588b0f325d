ghost use Rattle.std.specs.Prelude.{◌≡◌, length, nat_le};
ghost use Rattle.script.specs.Parts.{upto, past};
ghost use Rattle.script.specs.Fields.{comma, fields, field_at, number_at, kind_at};
ghost use Rattle.script.specs.Said.{said, called, command_said};

use crate::command::Command;
use crate::fault::{Cause, Fault};
use crate::field::{Field, Shape};
use plain::call::Call;
use rows::kind::Kind;

// How many bytes a line has at the most.
const LONGEST: usize = 64;

// The byte between fields.
const COMMA: u8 = b',';

// The second, third and fourth field of a line; one that the line has not is empty.
struct PastFirst<'a> {
    second: &'a [u8],
    third: &'a [u8],
    fourth: &'a [u8],
}

// A line of a script, and its number from 1.
#[derive(Clone, Copy)]
pub(crate) struct Line<'a> {
    pub(crate) text: &'a [u8],
    pub(crate) number: u32,
}

impl<'a> Line<'a> {
    // The call that the line says.
    pub(crate) fn take_apart(self) -> Result<Call, Fault>
        ensures value { result ≡ said self.entry.number self.entry.text.now }
    {
        if !is_short(self.text.len()) {
            return Err(Fault::of_line(Cause::LineTooLong, self.number));
        }
        let (first, rest) = cut_field(self.text);
        let command = self.command(first)?;
        if self.count_fields() != command.field_count() {
            return Err(Fault::of_line(Cause::WrongFieldCount, self.number));
        }
        self.call_of(command, rest)
    }

    // The command that the first field names.
    fn command(self, first: &'a [u8]) -> Result<Command, Fault>
        requires first { first.now ≡ field_at self.text.now 1 }
        ensures value { result ≡ command_said self.entry.number self.entry.text.now }
    {
        let word = Field::new(Shape::Word, first, 1).part();
        Command::from_word(word).ok_or(Fault::of_field(Cause::NoCommand, self.number, 1))
    }

    // One more than the commas, since counting these cuts no field off. They are summed and not filtered, so that no step
    // depends on what the byte is.
    fn count_fields(self) -> usize
        ensures value { result ≡ length (fields self.entry.text.now) }
    {
        let commas: usize = self
            .text
            .iter()
            .map(|byte| usize::from(*byte == COMMA))
            .sum();
        commas + 1
    }

    // The fields of what stands past the first. Each is cut off what the one before it left, so no byte is looked at twice.
    fn past_first(self, rest: &'a [u8]) -> PastFirst<'a>
        requires rest { rest.now ≡ past comma self.text.now }
        ensures second { result.second.now ≡ field_at self.entry.text.now 2 }
        ensures third { result.third.now ≡ field_at self.entry.text.now 3 }
        ensures fourth { result.fourth.now ≡ field_at self.entry.text.now 4 }
    {
        let (second, rest) = cut_field(rest);
        let (third, rest) = cut_field(rest);
        let (fourth, _) = cut_field(rest);
        PastFirst {
            second,
            third,
            fourth,
        }
    }

    // The number that a part of the line is, as the field at a place from 1.
    fn number_at(self, part: &'a [u8], place: u32) -> Result<u32, Fault>
        ensures value { result ≡ number_at self.entry.number place part.now }
    {
        Field::new(Shape::Number, part, place).number(self.number)
    }

    // The kind that a part of the line is, as the field at a place from 1.
    fn kind_at(self, part: &'a [u8], place: u32) -> Result<Kind, Fault>
        ensures value { result ≡ kind_at self.entry.number place part.now }
    {
        Field::new(Shape::Letter, part, place).kind(self.number)
    }

    // The call of a command, with its fields in what stands past the first.
    fn call_of(self, command: Command, rest: &'a [u8]) -> Result<Call, Fault>
        requires rest { rest.now ≡ past comma self.text.now }
        ensures value { result ≡ called self.entry.number self.entry.text.now command }
    {
        let PastFirst {
            second,
            third,
            fourth,
        } = self.past_first(rest);
        match command {
            Command::Open => Ok(Call::Open {
                tag: self.number_at(second, 2)?,
            }),
            Command::Copy => Ok(Call::Copy {
                tag: self.number_at(second, 2)?,
                new: self.number_at(third, 3)?,
            }),
            Command::Rename => Ok(Call::Rename {
                tag: self.number_at(second, 2)?,
                new: self.number_at(third, 3)?,
            }),
            Command::Close => Ok(Call::Close {
                tag: self.number_at(second, 2)?,
            }),
            Command::Insert => Ok(Call::Insert {
                tag: self.number_at(second, 2)?,
                row: self.number_at(third, 3)?,
                kind: self.kind_at(fourth, 4)?,
            }),
            Command::Strike => Ok(Call::Strike {
                tag: self.number_at(second, 2)?,
                row: self.number_at(third, 3)?,
            }),
            Command::Replace => Ok(Call::Replace {
                tag: self.number_at(second, 2)?,
                row: self.number_at(third, 3)?,
                kind: self.kind_at(fourth, 4)?,
            }),
            Command::Whole => Ok(Call::Whole {
                tag: self.number_at(second, 2)?,
            }),
            Command::Range => Ok(Call::Range {
                tag: self.number_at(second, 2)?,
                first: self.number_at(third, 3)?,
                last: self.number_at(fourth, 4)?,
            }),
        }
    }
}

// A text cut at its first comma: what stands before it, and what past it. Where there is none: all, and nothing.
fn cut_field(text: &[u8]) -> (&[u8], &[u8])
    ensures first { result.0.now ≡ upto comma text.now }
    ensures rest { result.1.now ≡ past comma text.now }
{
    match text.iter().position(|byte| *byte == COMMA) {
        Some(stop) => (&text[..stop], &text[stop + 1..]),
        None => (text, &[]),
    }
}

// Whether a line of so many bytes is short enough.
fn is_short(length: usize) -> bool
    ensures value { result ≡ nat_le length 64 }
{
    length <= LONGEST
}
