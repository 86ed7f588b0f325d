ghost use Rattle.std.specs.Prelude.{◌≡◌};
ghost use Rattle.automaton.specs.Maps.{leads, identity, composed, step};

use crate::data::{AutomatonData, MOST};
use rows::kind::Kind;
use std::array;

// A map of states; a number that is no state goes to itself.
#[derive(Clone, Copy)]
pub struct StateMap {
    pub(crate) to: [u8; MOST],
}

impl StateMap {
    // Where the map leads a state; past the most states it leads to 0.
    pub(crate) fn leads(&self, state: u8) -> u8
        ensures value { result ≡ leads self.now state }
    {
        self.to.get(usize::from(state)).copied().unwrap_or(0)
    }

    pub(crate) fn identity() -> StateMap
        ensures value { result ≡ identity }
    {
        StateMap {
            to: array::from_fn(|state| state as u8),
        }
    }

    // First this map, then the other.
    pub(crate) fn then(self, other: StateMap) -> StateMap
        ensures value { result ≡ composed self other }
    {
        StateMap {
            to: array::from_fn(|state| other.leads(self.leads(state as u8))),
        }
    }

    // Where a row leads each state.
    pub(crate) fn of_row(data: &AutomatonData, kind: Kind) -> StateMap
        ensures value { result ≡ step «data».now kind }
    {
        StateMap {
            to: array::from_fn(|state| data.moved(state as u8, kind)),
        }
    }
}
