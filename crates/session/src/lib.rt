// A command text run against a calculator: functions on values, so that what is printed is proved.
#![tactic(auto)]

pub mod failure;
pub mod line;
pub mod page;
pub mod run;
