// Tests of the layers and of the memo.
#![tactic(auto)]

pub mod deep;
pub mod first;
pub mod tests;
