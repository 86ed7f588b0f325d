// Recognisers made of other recognisers.
#![tactic(auto)]

pub mod all;
pub mod layer;
pub mod not;
pub mod reversed;
pub mod side_by_side;
