// Automata: rows read one after the other, state by state.
#![tactic(auto)]

pub mod automaton;
pub mod data;
pub mod recogniser;
pub mod state_map;
