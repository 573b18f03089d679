// The run over totals that are lent, for C programs that take forecast, totals and reply as records in place of words.
#![tactic(auto)]

ghost use Rattle.rules.specs.Lent.{lend};
ghost use Rattle.told.specs.Tells.{RunTells};

use forecast::Forecast;
use rules::Totals;
use told::Told;

// A run, adding to the totals that are lent.
#[unsafe(no_mangle)]
pub extern "C" fn ff_run_over(
    profile: u64,
    list: &mut [u64],
    cards: &mut [u32],
    table: &mut [usize],
    forecast: Forecast,
    requests: &[u8],
    allowance: u64,
    totals: &mut Totals,
) -> Told
    ensures { RunTells profile (lend list.old cards.old table.old) forecast requests.now allowance totals.old (record { told = result; totals = totals.new }) (lend list.new cards.new table.new) }
{
    told::ff_run_over(
        profile, list, cards, table, forecast, requests, allowance, totals,
    )
}
