// Whole numbers in and out: a signed 64-bit whole number as a word, a word's whole number, and how wide a word it needs.
#![tactic(auto)]

pub mod shortest;
pub mod taking;
pub mod writing;
