// Reading a script: its lines taken apart into calls, or into the first fault of each.
#![tactic(auto)]

mod apart;
pub mod command;
pub mod cursor;
pub mod fault;
pub mod field;
mod guard;
pub mod line;
pub mod number;
