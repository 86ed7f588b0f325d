// The two panels of lamps over a script, and over calls on a book: the theorems on every rule, at these two.
#![tactic(auto)]

pub mod blank;
pub mod panel;
pub mod panel_calls;
pub mod panel_one;
pub mod panel_two;
pub mod program;
pub mod reading;
pub mod run;
pub mod writing;
