// How high a balanced tree of so many rows can be.
#![tactic(auto)]

pub mod height;
