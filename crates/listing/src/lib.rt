// The text of a sheet block (paper 01, "The lister"): a line for each of its words, or its refusal.
#![tactic(auto)]

pub mod blocks;
mod lines;
mod text;
