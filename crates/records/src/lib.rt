// The records of a book: its sheets by tag, with their states, their numbers of rows and the roots of their trees.
#![tactic(auto)]

pub mod asking;
pub mod changing;
pub mod reading;
pub mod record;
pub mod records;
