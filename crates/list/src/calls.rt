// The public calls that change no list: make, check, lookup and scan. They ask nothing of what they are lent.
// A profile is any number: the check refuses one that names none.
ghost use Rattle.rules.specs.Lent.{lend};
ghost use Rattle.answers.specs.Admits.{MakeAdmits, CheckAdmits, LookupAdmits, ScanAdmits};

use answers::{CheckAnswer, LookupAnswer, MakeReply, ScanAnswer};
use forecast::Forecast;

// Writes 0 in every slot, every card and every entry of the table and gives an empty forecast.
pub fn make(profile: u64, list: &mut [u64], cards: &mut [u32], table: &mut [usize]) -> MakeReply
    ensures { MakeAdmits profile (lend list.old cards.old table.old) result (lend list.new cards.new table.new) }
{
    making::make(profile, list, cards, table)
}

// Tests refusals 15, 1 to 4 and 12 to 14 and changes nothing.
pub fn check(
    profile: u64,
    list: &[u64],
    cards: &[u32],
    table: &[usize],
    forecast: Forecast,
) -> CheckAnswer
    ensures { CheckAdmits profile (lend list.now cards.now table.now) forecast result }
{
    checks::look_lent(profile, list, cards, table, forecast)?;
    Ok(())
}

// Whether a key is live, where, and its card.
pub fn lookup(profile: u64, list: &[u64], cards: &[u32], table: &[usize], key: u64) -> LookupAnswer
    ensures { LookupAdmits profile (lend list.now cards.now table.now) key result }
{
    checks::look_read(profile, list, cards, table)?;
    looks::look_up(list, cards, table, key)
}

// The live keys above `from`, rising, and their cards, into the two outputs until one is full or the keys end.
pub fn scan(
    profile: u64,
    list: &[u64],
    cards: &[u32],
    table: &[usize],
    from: u64,
    output: &mut [u64],
    output_cards: &mut [u32],
) -> ScanAnswer
    ensures { ScanAdmits profile (lend list.now cards.now table.now) from output.old output_cards.old result output.new output_cards.new }
{
    checks::look_read(profile, list, cards, table)?;
    looks::scan_from(list, cards, table, from, output, output_cards)
}
