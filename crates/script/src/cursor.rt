ghost use Rattle.std.specs.Prelude.{◌≡◌, length, ◌==◌};
ghost use Rattle.script.specs.Whole.{WholeScript};
ghost use Rattle.script.specs.Seen.{seen, over, Within, inside, following};

// A reader's place in a script, and the end of what it shows. Two numbers beside the script, which they do not borrow: a
// guard lends them on, and they may lie outside.
#[derive(Drop)]
pub struct Cursor {
    pub(crate) place: usize,
    pub(crate) end: usize,
}

impl Cursor {
    // Shows the whole script.
    pub fn over(script: &[u8]) -> Cursor
        ensures value { result ≡ over script.now }
        ensures shows { seen script.now result ≡ script.now }
        ensures lines { WholeScript script.now }
    {
        Cursor {
            place: 0,
            end: script.len(),
        }
    }

    // Whether nothing is left to show.
    pub fn is_done(&self, script: &[u8]) -> bool
        ensures value { result ≡ (length (seen script.now self.now) == 0) }
    {
        let inside = self.inside(script);
        inside.place == inside.end
    }

    // What it shows.
    pub(crate) fn shown<'s>(&self, script: &'s [u8]) -> &'s [u8]
        ensures value { result.now ≡ seen script.now self.now }
    {
        let inside = self.inside(script);
        &script[inside.place..inside.end]
    }

    // The cursor brought into the script, where it shows the same.
    pub fn inside(&self, script: &[u8]) -> Cursor
        ensures value { result ≡ inside script.now self.now }
        ensures shows { seen script.now result ≡ seen script.now self.now }
        ensures within { Within script.now result }
    {
        let end = self.end.min(script.len());
        let place = self.place.min(end);
        Cursor { place, end }
    }
}

// The place past a mark at `stop`, or the end where there is none.
pub(crate) fn next_of(stop: usize, end: usize) -> usize
    ensures value { result ≡ following stop end }
{
    if stop < end { stop + 1 } else { end }
}
