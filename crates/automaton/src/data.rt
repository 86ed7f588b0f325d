ghost use Rattle.std.specs.Prelude.{◌≡◌, ◌<◌};
ghost use Rattle.automaton.specs.States.{is_state, is_lit};
ghost use Rattle.automaton.specs.Checks.{states_fit, start_fits, row_fits, fits_at, entries_fit, verdict_of, trivial_data};
ghost use Rattle.automaton.specs.Verdicts.{Says};
ghost use Rattle.automaton.specs.Accepted.{trivial_accepted};
ghost use Rattle.automaton.specs.Maps.{moved};

use checks::data::Data;
use checks::verdict::{Flaw, Verdict, ask};
use rows::kind::{KINDS, Kind};

// The most states of an automaton.
pub const MOST: usize = 16;

// What an automaton is made from; it may be wrong.
//
// Arrays with a count: the data are copied, and take no heap.
#[derive(Clone, Copy)]
pub struct AutomatonData {
    // How many states there are; they are counted from 0.
    pub states: u8,
    pub start: u8,
    // The next state, by the state and by the place of the kind.
    pub next: [[u8; KINDS]; MOST],
    // Whether the lamp is lit at a state. Not beside its row: a row is written as a whole.
    pub lit: [bool; MOST],
}

impl Data for AutomatonData {
    ghost verdict = { verdict_of };

    ghost Says = { Says };

    ghost trivial_data = { trivial_data };

    ghost trivial_accepted = { trivial_accepted };

    fn check(&self) -> Verdict
        ensures value { result ≡ verdict_of self.now }
        ensures says { Says self.now result }
    {
        self.first_no()
    }

    // One state, at which the lamp is not lit.
    fn trivial() -> AutomatonData {
        AutomatonData {
            states: 1,
            start: 0,
            next: [[0; KINDS]; MOST],
            lit: [false; MOST],
        }
    }
}

impl AutomatonData {
    fn first_no(&self) -> Verdict
        ensures value { result ≡ verdict_of self.now }
    {
        ask(self.states_fit(), Flaw::SizeOutOfLimits)?;
        ask(self.start_fits() && self.entries_fit(), Flaw::EntryTooLarge)
    }

    fn states_fit(&self) -> bool
        ensures value { result ≡ states_fit self.now }
    {
        (1..=MOST).contains(&usize::from(self.states))
    }

    fn start_fits(&self) -> bool
        ensures value { result ≡ start_fits self.now }
    {
        self.is_state(self.start)
    }

    fn entries_fit(&self) -> bool
        ensures value { result ≡ entries_fit self.now }
    {
        (0..MOST).all(|state| self.fits_at(state as u8))
    }

    // A state leads to states, and what is no state is not lit.
    fn fits_at(&self, state: u8) -> bool
        requires within { state < 16 }
        ensures value { result ≡ fits_at self.now state }
    {
        if self.is_state(state) {
            self.row_fits(&self.next[usize::from(state)])
        } else {
            !self.is_lit(state)
        }
    }

    fn row_fits(&self, row: &[u8; KINDS]) -> bool
        ensures value { result ≡ row_fits self.now row.now }
    {
        row.iter().all(|state| self.is_state(*state))
    }

    fn is_state(&self, state: u8) -> bool
        ensures value { result ≡ is_state self.now state }
    {
        state < self.states
    }

    // Whether the lamp is lit at a state.
    pub(crate) fn is_lit(&self, state: u8) -> bool
        ensures value { result ≡ is_lit self.now state }
    {
        self.lit.get(usize::from(state)).copied().unwrap_or(false)
    }

    // Where a row leads from a state; what is no state stays.
    pub(crate) fn moved(&self, state: u8, kind: Kind) -> u8
        requires within { state < 16 }
        ensures value { result ≡ moved self.now kind state }
    {
        if self.is_state(state) {
            self.next[usize::from(state)][kind.place()]
        } else {
            state
        }
    }
}
