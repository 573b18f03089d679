// The list a classroom lends: its slots, segments and windows, and what a reading and a search find, in specs/ and proofs/. No code.
#![tactic(auto)]

// How slots break the order, and the first slot that does: its key is not above each key before it, or a gap stands before it in its segment.
#[derive(Clone, Copy, PartialEq, Eq, Debug)]
pub enum Disorder {
    NotRising(usize),
    AfterGap(usize),
}

// Where a search for a key ends: the segment, the keys it holds, how many of them are below the key, and whether the key is live.
// One number for the place of a key that is live and of one that is not: both are put to the same use.
#[derive(Clone, Copy, PartialEq, Eq, Debug)]
pub struct Place {
    pub segment: usize,
    pub held: usize,
    pub at: usize,
    pub present: bool,
}
