// A run told in numbers, and over totals that are lent, as C programs take it.
#![tactic(auto)]

ghost use Rattle.rules.specs.Lent.{lend};
ghost use Rattle.told.specs.Tells.{RunTells};

use forecast::Forecast;
use rules::{Tally, Totals};

// What a run comes to: the forecast that it hands back, what it has counted, and the number of what refused or stopped it, or 0.
#[repr(C)]
#[derive(Clone, Copy)]
pub struct Told {
    pub forecast: Forecast,
    pub tally: Tally,
    // A number and no verdict: C reads this record as it stands.
    pub stop: u64,
}

#[derive(Clone, Copy)]
pub struct ToldRun {
    pub told: Told,
    pub totals: Totals,
}

// A run told in numbers.
pub fn run_told(
    profile: u64,
    list: &mut [u64],
    cards: &mut [u32],
    table: &mut [usize],
    forecast: Forecast,
    requests: &[u8],
    allowance: u64,
    totals: Totals,
) -> ToldRun
    ensures { RunTells profile (lend list.old cards.old table.old) forecast requests.now allowance totals result (lend list.new cards.new table.new) }
{
    let done = run::running::run_with(
        profile, list, cards, table, forecast, requests, allowance, totals,
    );
    let reply = done.reply;
    let left = reply.forecast;
    let tally = reply.tally;
    let verdict = reply.stop;
    let after = done.totals;
    ToldRun {
        told: Told {
            forecast: left,
            tally,
            stop: words::numbers::verdict_number(verdict),
        },
        totals: after,
    }
}

// The run, adding to the totals that are lent. C programs call it by the crate `told_c`.
pub fn ff_run_over(
    profile: u64,
    list: &mut [u64],
    cards: &mut [u32],
    table: &mut [usize],
    forecast: Forecast,
    requests: &[u8],
    allowance: u64,
    totals: &mut Totals,
) -> Told
    ensures { RunTells profile (lend list.old cards.old table.old) forecast requests.now allowance totals.old (record { told = result; totals = totals.new }) (lend list.new cards.new table.new) }
{
    let done = run_told(
        profile, list, cards, table, forecast, requests, allowance, *totals,
    );
    *totals = done.totals;
    done.told
}
