// Moving a column of words to another width, from one lent slice to another.
#![tactic(auto)]

pub mod moving;
