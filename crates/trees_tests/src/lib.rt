// Trees under a recogniser that keeps the first row of a word.
#![tactic(auto)]

pub mod first;
pub mod trees;
