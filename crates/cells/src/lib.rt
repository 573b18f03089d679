// A forecast's cells: what they are, what an insert notes in them and what a delete drops, in specs/ and proofs/. No code.
#![tactic(auto)]

// A marker is a live key, or 0 for the front of the list.
#[derive(Clone, Copy, PartialEq, Eq, Debug)]
pub struct Cell {
    pub marker: u64,
    pub segment: usize,
    pub count: usize,
}
