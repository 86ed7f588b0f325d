// The layer for words in which a marked row has a part before it and a part after it.
#![tactic(auto)]

mod action;
pub mod recogniser;
pub mod split;
