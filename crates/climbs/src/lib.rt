// The climb from a segment to the smallest window round it that is within limits.
#![tactic(auto)]

pub mod climbing;

// A window to sweep: its level, from 1 upward, and the keys in it.
#[derive(Clone, Copy, PartialEq, Eq, Debug)]
pub struct Climb {
    pub level: usize,
    pub keys: usize,
}
