// Sets of pairs of indexes below eight, in eight bytes.
#![tactic(auto)]

mod lines;
pub mod member;
pub mod pair_set;
