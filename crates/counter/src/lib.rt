// Counters: rows weighed by their kinds, modulo a number.
#![tactic(auto)]

pub mod counter;
pub mod data;
pub mod recogniser;
