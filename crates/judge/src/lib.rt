// Layer 2: the store verdict. Given both slots of the volume record and of every table page, it says of each pair where it stands, which
// failed slot, if any, is the one write that a crash can leave torn, and whether the store may be written.
//
// One judge goes over a row of pairs (row), in the form that a caller has them: as they were read (records), or as frames in bytes
// (frames).
#![tactic(auto)]

pub mod frames;
pub mod numbers;
pub mod operators;
pub mod pairs;
pub mod part;
pub mod records;
mod row;
pub mod verdict;
