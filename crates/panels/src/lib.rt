// The two panels of lamps that the program shows.
#![tactic(auto)]

pub mod lamps;
pub mod panels;
