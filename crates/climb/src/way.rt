ghost use Rattle.std.specs.Prelude.{◌≡◌, ◌<◌, if◌then◌else◌, nat_lt};
ghost use Rattle.std.specs.Option.{MatchOption};
ghost use Rattle.cells.specs.Descents.{most_depth};
ghost use Rattle.climb.specs.Ways.{no_way, Fitting, pushed, Taken};

use cells::links::Side;
use cells::stretch::{MOST_DEPTH, room_below};

// A row that a way down passes, and the side of it on which the way goes on.
#[derive(Clone, Copy, PartialEq, Eq, Debug)]
pub struct Step {
    pub place: u16,
    pub side: Side,
}

// A way down from a root: the rows passed, of which there are `depth`.
// An array with a count: a way is copied, and takes no heap.
#[derive(Clone, Copy)]
pub struct Way {
    pub steps: [Step; MOST_DEPTH],
    pub depth: usize,
}

impl Way {
    pub fn new() -> Way
        ensures value { result ≡ no_way }
    {
        let blank = Step {
            place: 0,
            side: Side::Right,
        };
        Way {
            steps: [blank; MOST_DEPTH],
            depth: 0,
        }
    }

    // Passes one row more, where there is room for it.
    pub fn push(&mut self, place: u16, side: Side)
        ensures after { self.new ≡ (if nat_lt self.old.depth most_depth then pushed self.old place side else self.old) }
        ensures within { Fitting self.old }
    {
        if room_below(self.depth) {
            self.steps[self.depth] = Step { place, side };
            self.depth += 1;
        }
    }

    // The rows passed, from the root down; none where more are counted than there is room for.
    pub fn taken(&self) -> Option<&[Step]>
        ensures value { MatchOption result (most_depth < self.now.depth) (λ steps. Taken self.now steps.now) }
    {
        self.steps.get(..self.depth)
    }
}
