// The hub: whatever is written, however long, becomes the nearest word here, or exactly it, by a rule.
#![tactic(auto)]

pub mod value;
pub mod writing;
