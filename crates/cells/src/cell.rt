ghost use Rattle.std.specs.Prelude.{◌≡◌};
ghost use Rattle.cells.specs.Blanks.{blank};
ghost use Rattle.cells.specs.Sides.{links_of};

use crate::links::Links;
use rows::kind::Kind;

// A row of a tree: its kind, the places of the cells below it, and what it stores of its stretch, the rows of its
// subtree.
#[derive(Clone, Copy)]
pub struct Cell<E> {
    pub kind: Kind,
    pub left: Option<u16>,
    pub right: Option<u16>,
    pub height: u8,
    pub size: u16,
    pub product: E,
}

impl<E: Copy> Cell<E> {
    // A cell that holds no row, with something for its product.
    pub fn blank(product: E) -> Cell<E>
        ensures value { result ≡ blank product }
    {
        Cell {
            kind: Kind::Blank,
            left: None,
            right: None,
            height: 0,
            size: 0,
            product,
        }
    }

    // The places of the cells below it.
    pub fn links(&self) -> Links
        ensures value { result ≡ links_of self.now }
    {
        Links {
            left: self.left,
            right: self.right,
        }
    }
}
