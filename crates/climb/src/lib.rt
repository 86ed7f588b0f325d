// The way from an edited row back up to the root: every row on it is joined with its sides anew, and balanced.
#![tactic(auto)]

pub mod join;
pub mod plan;
pub mod rise;
pub mod way;
