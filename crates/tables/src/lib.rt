// The table beside a list: one count for every window of every level, segments first, each level left to right.
#![tactic(auto)]

pub mod keeping;
pub mod summing;
