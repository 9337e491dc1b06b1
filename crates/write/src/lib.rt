// Writing a value as a word, and moving a word to another width, rounded or strict.
#![tactic(auto)]

pub mod moving;
pub mod value;
pub mod writing;
