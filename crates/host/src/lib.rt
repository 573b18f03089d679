// The calls for C programs, on numbers and slices of numbers. They ask nothing of what they are lent.
#![tactic(auto)]

pub mod calls;
pub mod changing;
pub mod running;
