// A run of request records.
ghost use Rattle.std.specs.Prelude.{[], ◌∷◌};
ghost use Rattle.given.specs.Calls.{Gives};
ghost use Rattle.given.specs.Calls as calls;

// Works request records, within an allowance of moves.
#[unsafe(no_mangle)]
pub extern "C" fn ff_run(
    profile: u64,
    list: &mut [u64],
    cards: &mut [u32],
    table: &mut [usize],
    forecast: &mut [u64],
    requests: &[u8],
    allowance: u64,
    totals: &mut [u32],
    reply: &mut [u64],
) -> u64
    ensures { Gives (calls.run profile list.old cards.old table.old forecast.old requests.now allowance totals.old reply.old) result (list.new ∷ cards.new ∷ table.new ∷ forecast.new ∷ totals.new ∷ reply.new ∷ []) }
{
    if replies::sizes::run_misfits(forecast.len(), totals.len(), reply.len()) {
        return replies::sizes::misfit();
    }
    totalled::run(
        profile, list, cards, table, forecast, requests, allowance, totals, reply,
    )
}
