ghost use Rattle.std.specs.Prelude.{◌≡◌};
ghost use Rattle.ranges.specs.Ends.{near, far};

use cells::cell::Cell;

// An end of the rows of a tree. Not a side of `cells`: it also says on which side of a word its rows are put. A value and no
// closure: what is promised of either end is said by it.
#[derive(Clone, Copy)]
pub enum End {
    Front,
    Back,
}

// The links of a row, by their nearness to an end. Not the links of `cells`: the near one is the left or the right.
#[derive(Clone, Copy)]
pub struct Sides {
    pub near: Option<u16>,
    pub far: Option<u16>,
}

impl End {
    pub(crate) fn sides<E: Copy>(self, cell: Cell<E>) -> Sides
        ensures value { result ≡ record { near = near self cell.left cell.right; far = far self cell.left cell.right } }
    {
        match self {
            End::Front => Sides {
                near: cell.left,
                far: cell.right,
            },
            End::Back => Sides {
                near: cell.right,
                far: cell.left,
            },
        }
    }
}
