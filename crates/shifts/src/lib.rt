// A key put in or taken out where a search for it ended: its slots and cards, with the table and the bounds, as code.
#![tactic(auto)]

ghost use Rattle.std.specs.Prelude.{◌≡◌, not, List, [], map, ℕ, ◌+◌, ◌*◌, ◌/◌, ◌≤◌, ◌<◌, T, length, get_or, set};
ghost use Rattle.slots.specs.Segments.{Segments, keys};
ghost use Rattle.slots.specs.Keys.{member, put, cut};
ghost use Rattle.slots.specs.Shown.{seat, Located};
ghost use Rattle.tables.specs.Kept.{Summed};
ghost use Rattle.seats.specs.Bounds.{Indexed};

use bounding::rebound;
use slots::Place;

// A new key, in a segment with room. No bound that a search reads changes.
pub fn put_in(
    list: &mut [u64],
    cards: &mut [u32],
    table: &mut [usize],
    place: Place,
    key: u64,
    card: u32,
)
    requires segment_in_bounds { (64 * place.segment + 64 ≤ length list.old) × (place.at ≤ place.held) × (place.held < 64) × (place.segment < length table.old / 2 + 1) × Summed (length table.old / 2 + 1) table.old }
    requires cards_len { length cards.old ≡ length list.old }
    ensures index { (ss : Segments) (bounds : List ℕ) → Indexed ss list.old bounds table.old → Located key ss place → T (not (member key (keys ss))) → 0 < key → Indexed (set ss (seat key ss) (put key (get_or ss (seat key ss) []))) list.new bounds table.new }
    ensures cards { (f : ℕ → ℕ) → f key ≡ card → cards.old ≡ map f list.old → cards.new ≡ map f list.new }
{
    let Place {
        segment,
        held,
        at,
        ..
    } = place;
    let n = table.len() / 2 + 1;
    let a = 64 * segment;
    let e = a + 64;
    gaps::open_gap(&mut list[a..e], &mut cards[a..e], held, at, key, card);
    tables::keeping::add_one(table, n, segment);
}

// A live key. Where it was its segment's first, that bound and those of the empty segments before change.
pub fn cut_out(
    list: &mut [u64],
    cards: &mut [u32],
    table: &mut [usize],
    bounds: &mut [u64],
    place: Place,
    key: u64,
)
    requires segment_bound { (place.segment < 64) × (64 * place.segment + 64 ≤ length list.old) × (place.at < place.held) × (place.held ≤ 64) }
    requires bounds_len { (length bounds.old ≡ 64) × (place.segment < length table.old / 2 + 1) × Summed (length table.old / 2 + 1) table.old × (get_or table.old place.segment 0 ≡ place.held) }
    requires cards_len { length cards.old ≡ length list.old }
    ensures index { (ss : Segments) → Indexed ss list.old bounds.old table.old → Located key ss place → T (member key (keys ss)) → Indexed (set ss (seat key ss) (cut key (get_or ss (seat key ss) []))) list.new bounds.new table.new }
    ensures cards { (f : ℕ → ℕ) → f 0 ≡ 0 → cards.old ≡ map f list.old → cards.new ≡ map f list.new }
{
    let Place {
        segment,
        held,
        at,
        ..
    } = place;
    let n = table.len() / 2 + 1;
    let a = 64 * segment;
    let e = a + 64;
    gaps::close_gap(&mut list[a..e], &mut cards[a..e], held, at);
    tables::keeping::take_one(table, n, segment);
    if at == 0 {
        rebound(list, bounds, segment, segment + 1);
    }
}
