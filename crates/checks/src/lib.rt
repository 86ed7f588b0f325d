// What the check of a recogniser's data answers.
#![tactic(auto)]

pub mod data;
pub mod verdict;
