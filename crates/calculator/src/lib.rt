// A calculator of 32 registers: the host lends the tables at each call.
#![tactic(auto)]

pub mod calculator;
pub mod register;
pub mod registers;
