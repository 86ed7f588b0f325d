// Trees under edits, beside plain lists of kinds.
#![tactic(auto)]

pub mod ends;
pub mod fault;
pub mod plain;
pub mod sheets;
