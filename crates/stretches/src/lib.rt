// A part of a swept window by its marks: the marks passed, and of each stretch between two of them the number of keys nearest by formula 6.
#![tactic(auto)]

pub mod crossing;
pub mod passing;
pub mod trying;

// A part of a packed window: the place of its first key and how many it has, its marks from `from` up to `to`, the front's weight if it
// begins with the front, and what it weighs, the front included.
#[derive(Clone, Copy, PartialEq, Eq, Debug)]
pub struct Part {
    pub place: usize,
    pub keys: usize,
    pub from: usize,
    pub to: usize,
    pub front: usize,
    pub all: usize,
}

// A key of a packed window that weighs: its place among the window's keys, and its weight.
#[derive(Clone, Copy, PartialEq, Eq, Debug)]
pub struct Mark {
    pub place: usize,
    pub weight: usize,
}

// The next mark, and what the left half weighs up to it.
#[derive(Clone, Copy, PartialEq, Eq, Debug)]
pub struct Passed {
    pub next: usize,
    pub left: usize,
}

// Numbers of keys for the left half, between two marks: the weights on both sides stay.
#[derive(Clone, Copy, PartialEq, Eq, Debug)]
pub struct Stretch {
    pub left: usize,
    pub right: usize,
    pub first: usize,
    pub last: usize,
}

// A number of keys for the left half, and its distance by formula 6 as a fraction.
#[derive(Clone, Copy, PartialEq, Eq, Debug)]
pub struct Tried {
    pub keys: usize,
    pub num: usize,
    pub den: usize,
}
