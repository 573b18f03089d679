// Sharing out a swept window: its parts, the split of a part, and the plan.
#![tactic(auto)]

pub mod parting;
pub mod splitting;
