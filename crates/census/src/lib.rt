// What the programs of the census share: digests and sequences, the pieces of a line, runs of places, and the widths. It serves them alone.
#![tactic(auto)]

pub mod digest;
pub mod line;
pub mod runs;
pub mod sequence;
pub mod taken;
pub mod widths;
