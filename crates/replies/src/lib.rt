// The sizes of what a C program lends, and what is written back to it: the words of replies and of a forecast.
#![tactic(auto)]

pub mod sizes;
pub mod writing;
