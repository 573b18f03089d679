// Counting and search in the slots of a list, and its height, as code.
#![tactic(auto)]

pub mod counting;
pub mod finding;
pub mod heights;
