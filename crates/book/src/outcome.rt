// What a call came to; it stands with the calls.
pub use calls::outcome::Outcome;
