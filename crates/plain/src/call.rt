ghost use Rattle.std.specs.Prelude.{◌≡◌};
ghost use Rattle.plain.specs.Calls.{tag_of};

use rows::kind::Kind;

// What a book may be asked for. Tags name sheets, and rows are counted from 1.
#[derive(Clone, Copy, PartialEq, Eq, Debug)]
pub enum Call {
    Open { tag: u32 },
    Copy { tag: u32, new: u32 },
    Rename { tag: u32, new: u32 },
    Close { tag: u32 },
    Insert { tag: u32, row: u32, kind: Kind },
    Strike { tag: u32, row: u32 },
    Replace { tag: u32, row: u32, kind: Kind },
    Whole { tag: u32 },
    Range { tag: u32, first: u32, last: u32 },
    Pause { tag: u32 },
    Recalculate { tag: u32 },
}

impl Call {
    // The tag of the sheet that the call is about.
    pub fn tag(self) -> u32
        ensures value { result ≡ tag_of self }
    {
        match self {
            Call::Open { tag }
            | Call::Copy { tag, .. }
            | Call::Rename { tag, .. }
            | Call::Close { tag }
            | Call::Insert { tag, .. }
            | Call::Strike { tag, .. }
            | Call::Replace { tag, .. }
            | Call::Whole { tag }
            | Call::Range { tag, .. }
            | Call::Pause { tag }
            | Call::Recalculate { tag } => tag,
        }
    }
}
