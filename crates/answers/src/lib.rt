// The answers of the public calls of a list, and what each call promises. No code.
#![tactic(auto)]

use forecast::Forecast;
use rules::{Refusal, Verdict};
use scans::Written;

// What a call leaves of a forecast, and its answer.
#[derive(Clone, Copy)]
pub struct Reply<A> {
    pub forecast: Forecast,
    pub answer: Result<A, Refusal>,
}

pub type MakeAnswer = Verdict;

pub type MakeReply = Reply<()>;

pub type CheckAnswer = Verdict;

// Where a live key is, and its card.
#[derive(Clone, Copy, PartialEq, Eq, Debug)]
pub struct Entry {
    pub segment: usize,
    pub card: u32,
}

// None: the key is not live.
pub type LookupAnswer = Result<Option<Entry>, Refusal>;

// The number of keys written, each with its card, and whether more remain.
pub type ScanAnswer = Result<Written, Refusal>;

// The moves.
pub type InsertAnswer = Result<u64, Refusal>;

pub type InsertReply = Reply<u64>;

// The moves, and whether the list is sparse then.
#[derive(Clone, Copy, PartialEq, Eq, Debug)]
pub struct Deleted {
    pub moves: u64,
    // A flag beside the moves: they count whether or not the list is sparse.
    pub sparse: bool,
}

pub type DeleteAnswer = Result<Deleted, Refusal>;

pub type DeleteReply = Reply<Deleted>;
