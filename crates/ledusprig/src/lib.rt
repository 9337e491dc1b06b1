// The face for C and Rust: the calls that a reader needs, each answer handed over as plain numbers. There is no rule in here. C has one function for each
// call and one number for each rule, so they are written out one by one.
#![tactic(auto)]

pub mod columns;
pub mod handed;
pub mod numbers;
mod rules;
pub mod widths;
pub mod words;
