// What a harness outside measures: many products of each recogniser, and the bytes of its elements.
#![tactic(auto)]

pub mod exports;
pub mod factors;
pub mod products;
