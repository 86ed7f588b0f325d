// Listing the answers to a script: the bytes of each answer line, and the whole listing of a run.
#![tactic(auto)]

pub mod answer;
pub mod due;
pub mod ending;
pub mod writer;
