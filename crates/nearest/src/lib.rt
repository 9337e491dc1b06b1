// The nearest word of a size with its sign, whatever lies below its first 64 bits, and which way it went: by value, ties to the even word, end words past
// the ends.
#![tactic(auto)]

mod amount;
pub mod size;
mod start;
