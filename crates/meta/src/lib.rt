// Layer 3: the metadata: region names, the volume record, table pages and their entries.
#![tactic(auto)]

pub mod meta;
pub mod meta2;
