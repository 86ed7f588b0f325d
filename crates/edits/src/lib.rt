// Edits of a tree of rows, in place in its cells: insertion, removal and replacement of one row.
#![tactic(auto)]

pub mod find;
pub mod insert;
pub mod replace;
pub mod strike;
