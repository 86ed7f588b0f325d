// Tables: monoids of at most eight elements, written out.
#![tactic(auto)]

mod associative;
pub mod check;
pub mod data;
mod entries;
mod neutral;
pub mod recogniser;
pub mod table;
