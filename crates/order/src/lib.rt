// The order of words of one width, and their negation.
#![tactic(auto)]

pub mod order;
