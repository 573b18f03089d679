// A run with forecast and totals as words, on what has the sizes that the call lists.
#![tactic(auto)]

ghost use Rattle.std.specs.Prelude.{◌≡◌, [], ◌∷◌, ◌≤◌, length};
ghost use Rattle.given.specs.Calls.{Gives};
ghost use Rattle.given.specs.Calls as calls;

// Works request records, within an allowance of moves.
pub fn run(
    profile: u64,
    list: &mut [u64],
    cards: &mut [u32],
    table: &mut [usize],
    forecast: &mut [u64],
    requests: &[u8],
    allowance: u64,
    totals: &mut [u32],
    reply: &mut [u64],
) -> u64
    requires { (length forecast.old ≡ 37) × (length totals.old ≡ 4) × (4 ≤ length reply.old) }
    ensures { Gives (calls.run profile list.old cards.old table.old forecast.old requests.now allowance totals.old reply.old) result (list.new ∷ cards.new ∷ table.new ∷ forecast.new ∷ totals.new ∷ reply.new ∷ []) }
{
    let given = words::read_forecast(forecast);
    let before = words::totals::read_totals(totals);
    let ran = told::run_told(
        profile, list, cards, table, given, requests, allowance, before,
    );
    posts::post_run(ran, forecast, totals, reply)
}
