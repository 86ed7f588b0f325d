// What a recogniser is: a finite monoid that lights lamps, and the languages that it recognises.
#![tactic(auto)]

pub mod fold;
pub mod indexes;
pub mod lamps;
pub mod recogniser;
pub mod small;
pub mod tally;
