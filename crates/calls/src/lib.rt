// The calls on a book: each on the records, the cells and the recogniser together.
#![tactic(auto)]

pub mod asking;
pub mod creating;
pub mod lending;
pub mod noting;
pub mod outcome;
pub mod perform;
pub mod working;
