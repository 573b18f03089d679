// The calls that change no list but a new one: make, check, lookup and scan.
ghost use Rattle.std.specs.Prelude.{[], ◌∷◌};
ghost use Rattle.given.specs.Calls.{Gives};
ghost use Rattle.given.specs.Calls as calls;

// Makes a list, its cards, its table and its forecast empty.
#[unsafe(no_mangle)]
pub extern "C" fn ff_make(
    profile: u64,
    list: &mut [u64],
    cards: &mut [u32],
    table: &mut [usize],
    forecast: &mut [u64],
) -> u64
    ensures { Gives (calls.make profile list.old cards.old table.old forecast.old) result (list.new ∷ cards.new ∷ table.new ∷ forecast.new ∷ []) }
{
    if replies::sizes::no_forecast(forecast.len()) {
        return replies::sizes::misfit();
    }
    stated::make(profile, list, cards, table, forecast)
}

// Tests refusals 15, 1 to 4 and 12 to 14.
#[unsafe(no_mangle)]
pub extern "C" fn ff_check(
    profile: u64,
    list: &[u64],
    cards: &[u32],
    table: &[usize],
    forecast: &[u64],
) -> u64
    ensures { Gives (calls.check profile list.now cards.now table.now forecast.now) result [] }
{
    if replies::sizes::no_forecast(forecast.len()) {
        return replies::sizes::misfit();
    }
    stated::check(profile, list, cards, table, forecast)
}

// Whether a key is live, where, and its card.
#[unsafe(no_mangle)]
pub extern "C" fn ff_lookup(
    profile: u64,
    list: &[u64],
    cards: &[u32],
    table: &[usize],
    key: u64,
    reply: &mut [u64],
) -> u64
    ensures { Gives (calls.lookup profile list.now cards.now table.now key reply.old) result (reply.new ∷ []) }
{
    if reply.len() < 3 {
        return replies::sizes::misfit();
    }
    stated::lookup(profile, list, cards, table, key, reply)
}

// The live keys above `from`, rising, and their cards.
#[unsafe(no_mangle)]
pub extern "C" fn ff_scan(
    profile: u64,
    list: &[u64],
    cards: &[u32],
    table: &[usize],
    from: u64,
    output: &mut [u64],
    output_cards: &mut [u32],
    reply: &mut [u64],
) -> u64
    ensures { Gives (calls.scan profile list.now cards.now table.now from output.old output_cards.old reply.old) result (output.new ∷ output_cards.new ∷ reply.new ∷ []) }
{
    if reply.len() < 2 {
        return replies::sizes::misfit();
    }
    stated::scan(
        profile,
        list,
        cards,
        table,
        from,
        output,
        output_cards,
        reply,
    )
}
