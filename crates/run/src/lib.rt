// Runs of request records: the run with its allowance, and the totals.
#![tactic(auto)]

pub mod running;
pub mod totals;

use forecast::Forecast;
use rules::{Tally, Totals, Verdict};

// What a run comes to: the forecast that it hands back, what it has counted, and what refused or stopped it, if anything did.
#[derive(Clone, Copy)]
pub struct Reply {
    pub forecast: Forecast,
    pub tally: Tally,
    pub stop: Verdict,
}

// That, with the totals then.
#[derive(Clone, Copy)]
pub struct Run {
    pub reply: Reply,
    pub totals: Totals,
}
