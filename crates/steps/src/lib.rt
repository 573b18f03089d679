// Requests worked on a list that has been checked: what each comes to is decided first, then its key is shifted in or out or its window swept.
#![tactic(auto)]

pub mod working;

use forecast::Forecast;
use rules::{Tally, Verdict};

// What records come to: the forecast then, what was counted, what stopped them, if anything did, what the last one worked came to, and the
// number of keys then.
#[derive(Clone, Copy)]
pub struct Worked {
    pub forecast: Forecast,
    pub tally: Tally,
    pub stop: Verdict,
    pub last: Verdict,
    pub keys: usize,
}
