// The check of what is lent: refusals 15, 1, 12, 2, 13, 3, 4 and 14, in this order.
#![tactic(auto)]

ghost use Rattle.std.specs.Prelude.{◌≡◌, List, ℕ, ◌/◌, length};
ghost use Rattle.rules.specs.Lent.{lend};
ghost use Rattle.rules.specs.Checks.{check_list, then_table};
ghost use Rattle.checks.specs.Listings.{Looked, ListLooked, BothLooked, ReadLooked, LentLooked, Counting};

use forecast::Forecast;
use rules::{Profile, Refusal};
use shares::Shape;

// What a check that accepts finds: the list's shape and the number of its keys.
#[derive(Clone, Copy)]
pub struct Listing {
    pub shape: Shape,
    pub keys: usize,
}

// Refusals 15, 1, 12, 2, 13 and 3, of any number for a profile, any slots and any cards; where it accepts, the number of keys of each
// segment is in its place of `counts`.
fn look_over(
    profile: u64,
    list: &[u64],
    cards: &[u32],
    counts: &mut [usize],
) -> Result<Listing, Refusal>
    requires { length counts.old ≡ 64 }
    ensures looked { (table : List ℕ) → ListLooked profile (lend list.now cards.now table) result }
    ensures counts { Counting list.now result counts.new }
{
    let profile = Profile::try_from(profile)?;
    let Some(height) = places::heights::height_of(list.len()) else {
        return Err(Refusal::WrongLength);
    };
    if cards.len() != list.len() {
        return Err(Refusal::WrongCards);
    }
    let Ok(keys) = reading::read_slots(list, counts) else {
        return Err(Refusal::WrongOrder);
    };
    if strays::stray(cards, counts, list.len() / 64) {
        return Err(Refusal::CardInGap);
    }
    let shape = shares::shape_of(profile, height);
    if shape.capacity < keys {
        return Err(Refusal::TooManyKeys);
    }
    Ok(Listing { shape, keys })
}

// The same, then 4, with any forecast; the counts as above.
fn look_over_both(
    profile: u64,
    list: &[u64],
    cards: &[u32],
    forecast: Forecast,
    counts: &mut [usize],
) -> Result<Listing, Refusal>
    requires { length counts.old ≡ 64 }
    ensures looked { (table : List ℕ) → BothLooked profile (lend list.now cards.now table) forecast result }
    ensures counts { Counting list.now result counts.new }
{
    let listing = look_over(profile, list, cards, counts)?;
    let shape = listing.shape;
    if let Err(_) = faults::fault_of(forecast, shape.cells, list) {
        return Err(Refusal::WrongForecast);
    }
    Ok(listing)
}

// Refusal 14, where nothing was found before it: the table of a list of `n` segments, by the counts of its segments.
fn then_table(
    listing: Listing,
    table: &[usize],
    counts: &[usize],
    n: usize,
) -> Result<Listing, Refusal>
    requires { (profile : ℕ) × (slots : List ℕ) × (m : ℕ) × Looked profile slots m (Ok listing) × (m ≡ 0 → check_list profile slots ≡ 0) × (n ≡ length slots / 64) × Counting slots (Ok listing) counts.now }
    ensures { (profile : ℕ) (slots cards : List ℕ) (m : ℕ) → Looked profile slots m (Ok listing) → (m ≡ 0 → check_list profile slots ≡ 0) → n ≡ length slots / 64 → Counting slots (Ok listing) counts.now → Looked profile slots (then_table m (lend slots cards table.now)) result }
{
    if judging::is_right(table, counts, n) {
        return Ok(listing);
    }
    Err(Refusal::WrongTable)
}

// Where no forecast is lent: refusals 15, 1, 12, 2, 13, 3 and 14, of any number for a profile, any slots, any cards and any table.
pub fn look_read(
    profile: u64,
    list: &[u64],
    cards: &[u32],
    table: &[usize],
) -> Result<Listing, Refusal>
    ensures { ReadLooked profile (lend list.now cards.now table.now) result }
{
    let mut counts: [usize; 64] = [0; 64];
    let listing = look_over(profile, list, cards, &mut counts)?;
    then_table(listing, table, &counts, list.len() / 64)
}

// Refusals 15, 1, 12, 2, 13, 3, 4 and 14, with any forecast.
pub fn look_lent(
    profile: u64,
    list: &[u64],
    cards: &[u32],
    table: &[usize],
    forecast: Forecast,
) -> Result<Listing, Refusal>
    ensures { LentLooked profile (lend list.now cards.now table.now) forecast result }
{
    let mut counts: [usize; 64] = [0; 64];
    let listing = look_over_both(profile, list, cards, forecast, &mut counts)?;
    then_table(listing, table, &counts, list.len() / 64)
}
