// Make, check, lookup and scan with forecast and reply as words, on what has the sizes that the call lists.
#![tactic(auto)]

ghost use Rattle.std.specs.Prelude.{◌≡◌, [], ◌∷◌, ◌≤◌, length};
ghost use Rattle.given.specs.Calls.{Gives};
ghost use Rattle.given.specs.Calls as calls;

use replies::writing::tell;
use words::numbers::verdict_number;

// Makes a list, its cards, its table and its forecast empty.
pub fn make(
    profile: u64,
    list: &mut [u64],
    cards: &mut [u32],
    table: &mut [usize],
    forecast: &mut [u64],
) -> u64
    requires { length forecast.old ≡ 37 }
    ensures { Gives (calls.make profile list.old cards.old table.old forecast.old) result (list.new ∷ cards.new ∷ table.new ∷ forecast.new ∷ []) }
{
    let made = list::calls::make(profile, list, cards, table);
    words::write_forecast(made.forecast, forecast);
    verdict_number(made.answer)
}

// Tests refusals 15, 1 to 4 and 12 to 14.
pub fn check(profile: u64, list: &[u64], cards: &[u32], table: &[usize], forecast: &[u64]) -> u64
    requires { length forecast.now ≡ 37 }
    ensures { Gives (calls.check profile list.now cards.now table.now forecast.now) result [] }
{
    let given = words::read_forecast(forecast);
    verdict_number(list::calls::check(profile, list, cards, table, given))
}

// Whether a key is live, where, and its card.
pub fn lookup(
    profile: u64,
    list: &[u64],
    cards: &[u32],
    table: &[usize],
    key: u64,
    reply: &mut [u64],
) -> u64
    requires { 3 ≤ length reply.old }
    ensures { Gives (calls.lookup profile list.now cards.now table.now key reply.old) result (reply.new ∷ []) }
{
    let found = list::calls::lookup(profile, list, cards, table, key);
    tell::<3>(telling::lookup_told(found), reply)
}

// The live keys above `from`, rising, and their cards.
pub fn scan(
    profile: u64,
    list: &[u64],
    cards: &[u32],
    table: &[usize],
    from: u64,
    output: &mut [u64],
    output_cards: &mut [u32],
    reply: &mut [u64],
) -> u64
    requires { 2 ≤ length reply.old }
    ensures { Gives (calls.scan profile list.now cards.now table.now from output.old output_cards.old reply.old) result (output.new ∷ output_cards.new ∷ reply.new ∷ []) }
{
    let scanned = list::calls::scan(profile, list, cards, table, from, output, output_cards);
    tell::<2>(telling::scan_told(scanned), reply)
}
