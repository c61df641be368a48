// Lists of cases, one a line, `NAME INPUT EXPECTED`: what stands in a line, what stands in an input, and a list replayed.
#![tactic(auto)]

pub mod input;
pub mod line;
pub mod replay;
