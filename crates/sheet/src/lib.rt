// Sheet blocks of 512 bytes: read into a lent slice of words, and written into a lent buffer.
#![tactic(auto)]

pub mod block;
mod bytes;
mod numbers;
mod parts;
mod sums;
mod testing;
mod words;
pub mod writing;
