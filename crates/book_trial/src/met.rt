use calls::outcome::Outcome;
use checks::verdict::ask;
use plain::call::Call;

// How many kinds of call there are.
const CALLS: usize = 11;

// How many numbers a call may come to.
const NUMBERS: usize = 10;

// How often calls of a kind were accepted and declined.
#[derive(Clone, Copy)]
struct Times {
    accepted: u32,
    declined: u32,
}

// How often that was for each kind of call, how often calls came to each number, and how often the first lamp was shown
// lit and not lit.
#[derive(Clone, Copy)]
pub struct Met {
    calls: [Times; CALLS],
    numbers: [u32; NUMBERS],
    lit: u32,
    unlit: u32,
}

// The place of a call's kind among the eleven: an enum whose cases hold something has no numbers of its own.
fn place(call: Call) -> usize {
    match call {
        Call::Open { .. } => 0,
        Call::Copy { .. } => 1,
        Call::Rename { .. } => 2,
        Call::Close { .. } => 3,
        Call::Insert { .. } => 4,
        Call::Strike { .. } => 5,
        Call::Replace { .. } => 6,
        Call::Whole { .. } => 7,
        Call::Range { .. } => 8,
        Call::Pause { .. } => 9,
        Call::Recalculate { .. } => 10,
    }
}

impl Times {
    // One time more.
    fn count(&mut self, accepted: bool) {
        let times = if accepted {
            &mut self.accepted
        } else {
            &mut self.declined
        };
        *times = times.saturating_add(1);
    }
}

impl Met {
    pub fn new() -> Met {
        Met {
            calls: [Times {
                accepted: 0,
                declined: 0,
            }; CALLS],
            numbers: [0; NUMBERS],
            lit: 0,
            unlit: 0,
        }
    }

    // One call more, and what it came to.
    pub fn add(&mut self, call: Call, outcome: Outcome) {
        if let Some(times) = self.calls.get_mut(place(call)) {
            times.count(outcome.refusal.is_none());
        }
        if let Some(count) = self.numbers.get_mut(outcome.number() as usize) {
            *count = count.saturating_add(1);
        }
        if outcome.lamps.lights(0) {
            self.lit = self.lit.saturating_add(1);
        } else if outcome.lamps.width() > 0 {
            self.unlit = self.unlit.saturating_add(1);
        }
    }

    // Whether each kind of call was accepted so often and declined so often, the numbers 1 to 8 were met so often, and
    // the first lamp was shown lit and not lit so often.
    pub fn reaches(&self, least: u32) -> bool {
        self.calls
            .iter()
            .all(|times| times.accepted >= least && times.declined >= least)
            && self.numbers[1..9].iter().all(|count| *count >= least)
            && self.lit >= least
            && self.unlit >= least
    }

    // How many calls met broken cells.
    pub fn broken(&self) -> u32 {
        self.numbers[9]
    }
}
