// The calls on a book, what they ask, and the plain book that says what they do.
#![tactic(auto)]

pub mod call;
pub mod question;
pub mod refusal;
pub mod state;
