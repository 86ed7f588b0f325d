// Numbers without pattern, for trials: the same seed gives the same numbers.
#![tactic(auto)]

pub mod dice;
