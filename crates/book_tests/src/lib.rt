// Tests of the book, by values that were worked out by hand.
#![tactic(auto)]

pub mod answers;
pub mod broken;
pub mod capacity;
pub mod counts;
pub mod desk;
pub mod refusals;
pub mod story;
pub mod tokens;
