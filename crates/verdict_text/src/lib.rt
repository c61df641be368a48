// Program `verdicts` between its reader and its writer: the lines that are read, those that are printed, and the answer to a text.
#![tactic(auto)]

pub mod answer;
pub mod laws;
pub mod read;
pub mod stream;
pub mod write;
