// What a correct write is (docs/FORMAT.md, "What a correct write is"), from a store's frames: the number of the next write, the slot,
// generation and previous checksum of a pair's next write and of the write that heals, and the bytes of the next write. A host that asks
// here computes none of it.
#![tactic(auto)]

pub mod error;
mod frame;
pub mod heal;
pub mod laws;
pub mod next;
pub mod numbers;
pub mod write;
