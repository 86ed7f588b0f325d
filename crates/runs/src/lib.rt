// Running a script: its lines taken apart, worked on a book of their own, and answered in the output.
#![tactic(auto)]

pub mod calling;
pub mod line;
pub mod run;
