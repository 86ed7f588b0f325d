// A small recogniser that asks for each product below once only.
#![tactic(auto)]

pub mod memo;
pub mod products;
