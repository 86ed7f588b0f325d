// The kinds of row that a sheet of a bill has, and their letters.
#![tactic(auto)]

pub mod kind;
