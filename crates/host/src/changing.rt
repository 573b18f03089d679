// The calls that change a list: insert and delete.
ghost use Rattle.std.specs.Prelude.{[], ◌∷◌};
ghost use Rattle.given.specs.Calls.{Gives};
ghost use Rattle.given.specs.Calls as calls;

// Puts a new key in, with its card.
#[unsafe(no_mangle)]
pub extern "C" fn ff_insert(
    profile: u64,
    list: &mut [u64],
    cards: &mut [u32],
    table: &mut [usize],
    forecast: &mut [u64],
    key: u64,
    card: u32,
    reply: &mut [u64],
) -> u64
    ensures { Gives (calls.insert profile list.old cards.old table.old forecast.old key card reply.old) result (list.new ∷ cards.new ∷ table.new ∷ forecast.new ∷ reply.new ∷ []) }
{
    if replies::sizes::misfits(forecast.len(), reply.len(), 1) {
        return replies::sizes::misfit();
    }
    worded::insert(profile, list, cards, table, forecast, key, card, reply)
}

// Takes a live key out.
#[unsafe(no_mangle)]
pub extern "C" fn ff_delete(
    profile: u64,
    list: &mut [u64],
    cards: &mut [u32],
    table: &mut [usize],
    forecast: &mut [u64],
    key: u64,
    reply: &mut [u64],
) -> u64
    ensures { Gives (calls.delete profile list.old cards.old table.old forecast.old key reply.old) result (list.new ∷ cards.new ∷ table.new ∷ forecast.new ∷ reply.new ∷ []) }
{
    if replies::sizes::misfits(forecast.len(), reply.len(), 2) {
        return replies::sizes::misfit();
    }
    worded::delete(profile, list, cards, table, forecast, key, reply)
}
