// Insert and delete with forecast and reply as words, on what has the sizes that the call lists.
#![tactic(auto)]

ghost use Rattle.std.specs.Prelude.{◌≡◌, [], ◌∷◌, ◌≤◌, length};
ghost use Rattle.given.specs.Calls.{Gives};
ghost use Rattle.given.specs.Calls as calls;

// Puts a new key in, with its card.
pub fn insert(
    profile: u64,
    list: &mut [u64],
    cards: &mut [u32],
    table: &mut [usize],
    forecast: &mut [u64],
    key: u64,
    card: u32,
    reply: &mut [u64],
) -> u64
    requires { (length forecast.old ≡ 37) × (1 ≤ length reply.old) }
    ensures { Gives (calls.insert profile list.old cards.old table.old forecast.old key card reply.old) result (list.new ∷ cards.new ∷ table.new ∷ forecast.new ∷ reply.new ∷ []) }
{
    let given = words::read_forecast(forecast);
    let done = list::changing::insert(profile, list, cards, table, given, key, card);
    posts::post_insert(done, forecast, reply)
}

// Takes a live key out.
pub fn delete(
    profile: u64,
    list: &mut [u64],
    cards: &mut [u32],
    table: &mut [usize],
    forecast: &mut [u64],
    key: u64,
    reply: &mut [u64],
) -> u64
    requires { (length forecast.old ≡ 37) × (2 ≤ length reply.old) }
    ensures { Gives (calls.delete profile list.old cards.old table.old forecast.old key reply.old) result (list.new ∷ cards.new ∷ table.new ∷ forecast.new ∷ reply.new ∷ []) }
{
    let given = words::read_forecast(forecast);
    let done = list::changing::delete(profile, list, cards, table, given, key);
    posts::post_delete(done, forecast, reply)
}
