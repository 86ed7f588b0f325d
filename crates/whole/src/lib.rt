// A tree as a whole: its stored products computed anew, and a second tree of the same rows.
#![tactic(auto)]

pub mod copying;
pub mod ranks;
pub mod renewing;
