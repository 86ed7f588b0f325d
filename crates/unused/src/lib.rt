// The unused cells among those lent by a caller, and trees whose cells are given back to them.
#![tactic(auto)]

pub mod freeing;
pub mod list;
pub mod pile;
pub mod piling;
