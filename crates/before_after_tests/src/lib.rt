// Before-and-after over the smallest recogniser that remembers something.
#![tactic(auto)]

pub mod seen;
pub mod summary;
