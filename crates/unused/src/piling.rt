ghost use Rattle.std.specs.Prelude.{◌≡◌, []};
ghost use Rattle.unused.specs.Piles.{tops, Pushes, Pops};

use crate::pile::Pile;
use cells::stretch::{MOST_DEPTH, room_below};

impl Pile {
    pub fn empty() -> Pile
        ensures value { tops result ≡ [] }
    {
        Pile {
            places: [0; MOST_DEPTH],
            depth: 0,
        }
    }

    // Puts a place on top, if there is one; none where there is no room.
    pub fn push(&mut self, at: Option<u16>) -> Option<()>
        ensures after { Pushes self.old self.new at result }
    {
        let Some(place) = at else {
            return Some(());
        };
        if room_below(self.depth) {
            self.places[self.depth] = place;
            self.depth += 1;
            return Some(());
        }
        None
    }

    // Takes the top off.
    pub fn pop(&mut self) -> Option<u16>
        ensures after { Pops self.old self.new result }
    {
        self.depth = self.depth.checked_sub(1)?;
        Some(self.places[self.depth])
    }
}
