// What one linear takum word means: its fields, and reading it.
#![tactic(auto)]

mod bits;
pub mod fields;
pub mod reading;
