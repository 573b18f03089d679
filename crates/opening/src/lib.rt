// Records worked on anything that is lent: the check once, then the records in order.
#![tactic(auto)]

ghost use Rattle.rules.specs.Lent.{lend};
ghost use Rattle.opening.specs.Opens.{Opens};

use forecast::Forecast;
use steps::Worked;

// The check; where it accepts, the bounds of the segments, a buffer for plans, and the records within an allowance of moves. Where it
// refuses, that stops them and nothing else has happened.
pub fn work_lent(
    profile: u64,
    list: &mut [u64],
    cards: &mut [u32],
    table: &mut [usize],
    forecast: Forecast,
    requests: &[u8],
    allowance: u64,
) -> Worked
    ensures { Opens profile (lend list.old cards.old table.old) forecast requests.now allowance result (lend list.new cards.new table.new) }
{
    match checks::look_lent(profile, list, cards, table, forecast) {
        Err(refusal) => Worked {
            forecast,
            tally: tallies::none(),
            stop: Err(refusal),
            last: Err(refusal),
            keys: 0,
        },
        Ok(listing) => {
            let mut bounds: [u64; 64] = [u64::MAX; 64];
            bounding::bound(list, &mut bounds);
            let mut plan: [usize; 64] = [0; 64];
            steps::working::work(
                list,
                cards,
                table,
                &mut bounds,
                &mut plan,
                forecast,
                listing.shape,
                listing.keys,
                requests,
                allowance,
            )
        }
    }
}
