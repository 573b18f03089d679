// What a request comes to, decided before anything is written.
#![tactic(auto)]

pub mod aiming;

// What an accepted request comes to: whether a key is put in or taken out, which, the key before it, its segment and its place there, the
// keys held there, the level of the window to sweep (0 for none), and the moves.
#[derive(Clone, Copy, PartialEq, Eq, Debug)]
pub struct Aim {
    pub grows: bool,
    pub key: u64,
    pub before: u64,
    pub segment: usize,
    pub at: usize,
    pub held: usize,
    pub level: usize,
    pub moves: usize,
}
