// The tokens of a text, the numbers that they write, and the writing of numbers.
#![tactic(auto)]

pub mod bytes;
pub mod numeral;
pub mod output;
pub mod scan;
pub mod tokens;
