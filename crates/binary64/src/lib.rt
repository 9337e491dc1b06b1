// binary64 numbers written as words, and words taken out as binary64 numbers.
#![tactic(auto)]

pub mod taking;
pub mod writing;
