ghost use Rattle.std.specs.Prelude.{◌≡◌};

use plain::state::State;
use unused::list::Unused;

// What a call is given of the sheet that it is about: where its tree has its root, its state, and where the unused cells
// begin. The place alone, and no `Unused`: it is what a book keeps of the unused cells.
#[derive(Clone, Copy)]
pub struct Part {
    pub root: Option<u16>,
    pub state: State,
    pub unused: Option<u16>,
}

impl Part {
    pub(crate) fn unused(self) -> Unused
        ensures value { result ≡ record { first = self.unused } }
    {
        Unused { first: self.unused }
    }
}

// Where the tree that is changed or made has its root, and where the unused cells begin.
#[derive(Clone, Copy)]
pub struct Change {
    pub root: Option<u16>,
    pub unused: Option<u16>,
}

impl Change {
    pub(crate) fn new(root: Option<u16>, unused: Unused) -> Change
        ensures value { result ≡ record { root = root; unused = unused.first } }
    {
        Change {
            root,
            unused: unused.first,
        }
    }
}
