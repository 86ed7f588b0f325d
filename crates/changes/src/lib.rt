// What the calls do to the cells: the tree of one sheet and the unused cells, changed together.
#![tactic(auto)]

pub mod change;
pub mod changing;
