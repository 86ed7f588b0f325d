ghost use Rattle.std.specs.Prelude.{◌≡◌, ◌≤◌, length};
ghost use Rattle.cells.specs.Descents.{most_depth};

use cells::stretch::MOST_DEPTH;

// Places of cells to come back to, the next on top; as many as a walk is deep at the most.
// An array with a count: a walk's short stack, which is copied and takes no heap. Not a way: one that is full takes no
// more in silence, and a pile tells of it.
#[derive(Clone, Copy)]
pub struct Pile {
    pub(super) places: [u16; MOST_DEPTH],
    pub(super) depth: usize,
    ghost full: { length places ≡ most_depth },
    ghost low: { depth ≤ most_depth },
}
