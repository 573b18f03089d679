// Lookup and scan on a list, cards and a table that have passed their check, whatever the profile, as code.
#![tactic(auto)]

ghost use Rattle.std.specs.Prelude.{◌≡◌, List, ℕ, ◌+◌, ◌*◌, ◌≤◌, length};
ghost use Rattle.slots.specs.Segments.{Segments};
ghost use Rattle.slots.specs.Shown.{seat};
ghost use Rattle.seats.specs.Bounds.{Indexed};
ghost use Rattle.rules.specs.Lent.{lend};
ghost use Rattle.rules.specs.Checks.{check_read};
ghost use Rattle.answers.specs.Admits.{LookupAdmits, ScanAdmits};
ghost use Rattle.looks.specs.Past.{Past};

use answers::{Entry, LookupAnswer, ScanAnswer};
use rules::Refusal;

// Whether a key is live, where, and its card.
pub fn look_up(list: &[u64], cards: &[u32], table: &[usize], key: u64) -> LookupAnswer
    requires { (profile : ℕ) × (check_read profile (lend list.now cards.now table.now) ≡ 0) }
    ensures { (profile : ℕ) → check_read profile (lend list.now cards.now table.now) ≡ 0 → LookupAdmits profile (lend list.now cards.now table.now) key result }
{
    if key == 0 {
        return Err(Refusal::KeyZero);
    }
    let segment = descents::seek(table, list, list.len() / 64, key);
    let place = seeking::finding::place_in(list, 64 * segment, key);
    if list[place] != key {
        return Ok(None);
    }
    Ok(Some(Entry {
        segment,
        card: cards[place],
    }))
}

// How many keys of the segment where a search for `from` ends are not above it.
fn past(list: &[u64], segment: usize, from: u64) -> usize
    requires { 64 * segment + 64 ≤ length list.now }
    ensures { (ss : Segments) (bounds table : List ℕ) → Indexed ss list.now bounds table → segment ≡ seat from ss → Past from ss segment result }
{
    let place = seeking::finding::place_in(list, 64 * segment, from);
    let found = list[place];
    if found == 0 || from < found {
        return 0;
    }
    place - 64 * segment + 1
}

// The live keys above `from`, rising, and their cards into two outputs until either is full or they end, by the table.
pub fn scan_from(
    list: &[u64],
    cards: &[u32],
    table: &[usize],
    from: u64,
    output: &mut [u64],
    output_cards: &mut [u32],
) -> ScanAnswer
    requires { (profile : ℕ) × (check_read profile (lend list.now cards.now table.now) ≡ 0) }
    ensures { (profile : ℕ) → check_read profile (lend list.now cards.now table.now) ≡ 0 → ScanAdmits profile (lend list.now cards.now table.now) from output.old output_cards.old result output.new output_cards.new }
{
    let segment = descents::seek(table, list, list.len() / 64, from);
    let at = past(list, segment, from);
    Ok(scans::write_keys(list, cards, table, segment, at, output, output_cards))
}
