// Layer 2: the current version of a pair of slots, and its payload.
#![tactic(auto)]

pub mod laws;
pub mod pair;
pub mod winner;
