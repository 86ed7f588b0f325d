ghost use Rattle.std.specs.Prelude.{◌≡◌};
ghost use Rattle.script.specs.Fields.{part_of, place_of, shape_of, number_said, kind_said, kind_in};

use crate::fault::{Cause, Fault};
use crate::number::number_of;
use rows::kind::Kind;

// What a field is to be.
#[derive(Clone, Copy, PartialEq, Eq, Debug)]
pub enum Shape {
    Word,
    Number,
    Letter,
}

// A field: its part of the script, which it borrows, and its place in the line from 1. A case for each shape and no struct
// with a shape: what may be read of a field depends on its case alone.
#[derive(Clone, Copy)]
pub enum Field<'a> {
    Word(&'a [u8], u32),
    Number(&'a [u8], u32),
    Letter(&'a [u8], u32),
}

impl<'a> Field<'a> {
    pub fn new(shape: Shape, part: &'a [u8], place: u32) -> Field<'a>
        ensures items { part_of result ≡ part.now }
        ensures place { place_of result ≡ place }
        ensures shape { shape_of result ≡ shape }
    {
        match shape {
            Shape::Word => Field::Word(part, place),
            Shape::Number => Field::Number(part, place),
            Shape::Letter => Field::Letter(part, place),
        }
    }

    // The part of the script that the field is.
    pub fn part(self) -> &'a [u8]
        ensures value { result.now ≡ part_of self.entry }
    {
        match self {
            Field::Word(part, _) | Field::Number(part, _) | Field::Letter(part, _) => part,
        }
    }

    // The place of the field in its line.
    pub fn place(self) -> u32
        ensures value { result ≡ place_of self.entry }
    {
        match self {
            Field::Word(_, place) | Field::Number(_, place) | Field::Letter(_, place) => place,
        }
    }

    // The number of a number field.
    pub fn number(self, line: u32) -> Result<u32, Fault>
        ensures value { result ≡ number_said line self.entry }
    {
        let fault = Fault::of_field(Cause::BadNumber, line, self.place());
        match self {
            Field::Number(part, _) => number_of(part).ok_or(fault),
            Field::Word(_, _) | Field::Letter(_, _) => Err(fault),
        }
    }

    // The kind of a letter field.
    pub fn kind(self, line: u32) -> Result<Kind, Fault>
        ensures value { result ≡ kind_said line self.entry }
    {
        let fault = Fault::of_field(Cause::BadKind, line, self.place());
        match self {
            Field::Letter(part, _) => kind_in(part).ok_or(fault),
            Field::Word(_, _) | Field::Number(_, _) => Err(fault),
        }
    }
}

// The kind of a text of one letter.
fn kind_in(text: &[u8]) -> Option<Kind>
    ensures value { result ≡ kind_in text.now }
{
    match text {
        [letter] => Kind::from_letter(*letter as char),
        _ => None,
    }
}
