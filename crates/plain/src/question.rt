ghost use Rattle.std.specs.Prelude.{◌≡◌};
ghost use Rattle.plain.specs.Questions.{reason_of};

use crate::refusal::Refusal;

// A question about the sheets that a call asks. Tags name sheets, and rows are counted from 1.
#[derive(Clone, Copy, PartialEq, Eq, Debug)]
pub enum Question {
    // Does a sheet have the tag? Has none it? Do fewer than eight sheets stand?
    Standing(u32),
    Unused(u32),
    FewerThanEight,
    // Is the sheet of the tag settled? Is it paused?
    Settled(u32),
    Paused(u32),
    // Is the row one of the sheet of the tag? Can a row be put in there? Are the rows first to last among its rows?
    RowIn(u32, u32),
    GapIn(u32, u32),
    RowsIn(u32, u32, u32),
    // Does one row more fit the capacity? Do those of the sheet of the tag once more?
    RoomForOne,
    RoomForCopy(u32),
}

impl Question {
    // The refusal where the answer is no.
    pub fn refusal(self) -> Refusal
        ensures value { result ≡ reason_of self }
    {
        match self {
            Question::Standing(_) => Refusal::NoSuchSheet,
            Question::Unused(_) => Refusal::TagInUse,
            Question::FewerThanEight => Refusal::TooManySheets,
            Question::Settled(_) => Refusal::NotSettled,
            Question::Paused(_) => Refusal::NotPaused,
            Question::RowIn(_, _) | Question::GapIn(_, _) | Question::RowsIn(_, _, _) => {
                Refusal::RowOutOfRange
            }
            Question::RoomForOne | Question::RoomForCopy(_) => Refusal::NoRoom,
        }
    }
}
