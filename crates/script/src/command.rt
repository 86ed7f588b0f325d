ghost use Rattle.std.specs.Prelude.{◌≡◌};
ghost use Rattle.script.specs.Commands.{command_of, shapes, field_count};

use crate::field::Shape;

// The commands of a script.
#[derive(Clone, Copy, PartialEq, Eq, Debug)]
pub enum Command {
    Open,
    Copy,
    Rename,
    Close,
    Insert,
    Strike,
    Replace,
    Whole,
    Range,
}

impl Command {
    // The command that a word names, if it names one.
    pub fn from_word(word: &[u8]) -> Option<Command>
        ensures value { result ≡ command_of word.now }
    {
        match word {
            b"open" => Some(Command::Open),
            b"copy" => Some(Command::Copy),
            b"rename" => Some(Command::Rename),
            b"close" => Some(Command::Close),
            b"insert" => Some(Command::Insert),
            b"strike" => Some(Command::Strike),
            b"replace" => Some(Command::Replace),
            b"whole" => Some(Command::Whole),
            b"range" => Some(Command::Range),
            _ => None,
        }
    }

    // What the fields past the command are to be.
    pub fn shapes(self) -> &'static [Shape]
        ensures value { result.now ≡ shapes self }
    {
        match self {
            Command::Open | Command::Close | Command::Whole => &[Shape::Number],
            Command::Copy | Command::Rename | Command::Strike => &[Shape::Number, Shape::Number],
            Command::Insert | Command::Replace => &[Shape::Number, Shape::Number, Shape::Letter],
            Command::Range => &[Shape::Number, Shape::Number, Shape::Number],
        }
    }

    // How many fields a line of the command has, the command among them.
    pub fn field_count(self) -> usize
        ensures value { result ≡ field_count self }
    {
        self.shapes().len() + 1
    }
}
