// What C hosts call: functions on byte slices and numbers, declared in include/store_io.h. What their numbers stand for, and the numbers
// that they find, are made in the same modules.
#![tactic(auto)]

pub mod answers;
pub mod arguments;
pub mod checksum;
pub mod cursor;
pub mod entries;
pub mod judging;
pub mod names;
pub mod pages;
pub mod pairs;
pub mod planning;
pub mod slots;
pub mod tables;
pub mod version;
pub mod volumes;
pub mod winners;
