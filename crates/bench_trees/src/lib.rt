// What a harness outside measures: edits and ranges of trees, and folds of their rows.
#![tactic(auto)]

pub mod exports;
mod fold;
mod scatter;
mod tree;
