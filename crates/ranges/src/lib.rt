// The product of a range of the rows of a tree, from the products that its cells store.
#![tactic(auto)]

pub mod end;
pub mod fork;
pub mod join;
pub mod range;
pub mod walk;
