// What every call tests first and how it answers: the widths, the words that belong to a width, the room for results, and the yard's refusals.
#![tactic(auto)]

pub mod answer;
pub mod good;
pub mod refusal;
pub mod room;
pub mod saying;
pub mod width;
