// The event list: make, check, lookup, insert, delete and scan, on arrays, table and forecast as they are lent.
#![tactic(auto)]

pub mod calls;
pub mod changing;
