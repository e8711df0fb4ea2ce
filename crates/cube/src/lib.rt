// Cubes of twenty slots, what every notation for them answers, and the numbers and refusals that every layer shares.
#![tactic(auto)]

pub mod notation;
pub mod ranged;
pub mod refusal;
pub mod shape;
pub mod slot;
pub mod variable;
