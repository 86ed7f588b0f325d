// The book of sheets, and what holds after every run of calls on it.
#![tactic(auto)]

pub mod book;
pub mod outcome;
pub mod sheets;
pub mod token;
pub mod work;
