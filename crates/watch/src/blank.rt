ghost use Rattle.std.specs.Prelude.{◌≡◌, None};

use cells::cell::Cell;
use monoid::recogniser::Recogniser;

// A cell that holds no row, to be lent to a book under the recogniser.
pub fn blank_cell<R: Recogniser>(recogniser: &R) -> Cell<R::Element>
    ensures rows { result.size ≡ 0 }
    ensures left { result.left ≡ None }
    ensures right { result.right ≡ None }
{
    Cell::blank(recogniser.unit())
}
