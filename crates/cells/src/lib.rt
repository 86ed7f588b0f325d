// Cells lent by a caller, and the trees of rows that they hold.
#![tactic(auto)]

pub mod cell;
pub mod links;
pub mod mend;
pub mod mode;
pub mod reach;
pub mod stretch;
