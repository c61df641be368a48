// Layer 2: slots, a header of 128 bytes and a payload, as they are read and as they are written.
#![tactic(auto)]

pub mod encode;
pub mod header;
pub mod laws;
pub mod numbers;
pub mod slot;
pub mod validate;
