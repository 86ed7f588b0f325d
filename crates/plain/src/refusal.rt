ghost use Rattle.std.specs.Prelude.{◌≡◌};
ghost use Rattle.plain.specs.Refusals.{refusal_number};

// The question that a call answered no, with its number.
#[derive(Clone, Copy, PartialEq, Eq, Debug)]
pub enum Refusal {
    TagOutOfRange = 1,
    NoSuchSheet = 2,
    TagInUse = 3,
    TooManySheets = 4,
    NotSettled = 5,
    NotPaused = 6,
    RowOutOfRange = 7,
    NoRoom = 8,
    BrokenCells = 9,
}

impl Refusal {
    pub fn number(self) -> u32
        ensures value { result ≡ refusal_number self }
    {
        self as u32
    }
}
