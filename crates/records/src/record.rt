ghost use Rattle.std.specs.Prelude.{◌≡◌};
ghost use Rattle.plain.specs.declared.state.State.TheVariants.{Settled};

use plain::state::State;

// What a book keeps of a sheet, besides its cells.
#[derive(Clone, Copy)]
pub struct Record {
    pub tag: u32,
    pub state: State,
    pub rows: u16,
    pub root: Option<u16>,
}

impl Record {
    // The record of a new sheet, which is settled.
    pub(crate) fn fresh(tag: u32, rows: u16, root: Option<u16>) -> Record
        ensures value { result ≡ record { tag = tag; state = Settled; rows = rows; root = root } }
    {
        Record {
            tag,
            state: State::Settled,
            rows,
            root,
        }
    }
}
