// What the console parses and prints, as functions on values: command lines, and the line of a refusal put into bytes.
#![tactic(auto)]

pub mod files;
pub mod lines;
pub mod output;
pub mod parse;
pub mod report;
