// A run: the check once, then the records in order within an allowance of moves.
ghost use Rattle.rules.specs.Lent.{lend};
ghost use Rattle.run.specs.Admits.{RunAdmits};

use crate::{Reply, Run, totals};
use forecast::Forecast;
use rules::Totals;

// A run on anything that is lent.
pub fn run_with(
    profile: u64,
    list: &mut [u64],
    cards: &mut [u32],
    table: &mut [usize],
    forecast: Forecast,
    requests: &[u8],
    allowance: u64,
    totals: Totals,
) -> Run
    ensures { RunAdmits profile (lend list.old cards.old table.old) forecast requests.now allowance totals result (lend list.new cards.new table.new) }
{
    let worked = opening::work_lent(profile, list, cards, table, forecast, requests, allowance);
    let after = worked.forecast;
    let tally = worked.tally;
    let stop = worked.stop;
    let reply = Reply {
        forecast: after,
        tally,
        stop,
    };
    Run {
        reply,
        totals: totals::add_tally(totals, tally),
    }
}
