// What a word means as a sign and a size in the normal form, from which every number that is written or taken out begins.
#![tactic(auto)]

pub mod size;
