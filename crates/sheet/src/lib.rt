// Sheets of cubes: reading and writing.
#![tactic(auto)]

pub mod reading;
pub mod writing;
