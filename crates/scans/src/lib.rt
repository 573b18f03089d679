// The keys of a list, from a place on, and their cards, written into lent outputs by the counts of its segments.
#![tactic(auto)]

ghost use Rattle.std.specs.Prelude.{◌≡◌, [], map, ℕ, ◌+◌, ◌*◌, ◌/◌, ◌≤◌, ◌<◌, length, take, get_or};
ghost use Rattle.slots.specs.Segments.{Segments};
ghost use Rattle.slots.specs.Shown.{Shows};
ghost use Rattle.scans.specs.Scans.{Wrote, keys_from, shorter, cards_over};

// Keys written, and whether there were more.
#[derive(Clone, Copy)]
pub struct Written {
    pub keys: usize,
    pub more: bool,
}

// The keys from key `at` of segment `first` on into `output` and their cards into `output_cards`, until either is full or they end.
pub fn write_keys(
    list: &[u64],
    cards: &[u32],
    counts: &[usize],
    first: usize,
    at: usize,
    output: &mut [u64],
    output_cards: &mut [u32],
) -> Written
    requires first_in_bounds { (64 * first + 64 ≤ length list.now) × (length list.now / 64 ≤ length counts.now) × (at ≤ get_or counts.now first 0) × ((k : ℕ) → k < length list.now / 64 → get_or counts.now k 0 ≤ 64) }
    requires cards_len { length cards.now ≡ length list.now }
    ensures keys { (ss : Segments) → Shows ss list.now → ((k : ℕ) → k < length ss → get_or counts.now k 0 ≡ length (get_or ss k [])) → Wrote (shorter (length output.old) (length output_cards.old)) (keys_from first at ss) output.old result output.new }
    ensures cards { (f : ℕ → ℕ) (ss : Segments) → Shows ss list.now → ((k : ℕ) → k < length ss → get_or counts.now k 0 ≡ length (get_or ss k [])) → cards.now ≡ map f list.now → output_cards.new ≡ cards_over f (take (shorter (length output.old) (length output_cards.old)) (keys_from first at ss)) output_cards.old }
{
    let room = output.len().min(output_cards.len());
    // `w` keys are written; next come those of segment `s` from its key `from` on.
    let mut w = 0;
    let mut from = at;
    for s in first..list.len() / 64 {
        let left = counts[s] - from;
        let n = left.min(room - w);
        copying::copy(list, cards, 64 * s + from, n, output, output_cards, w);
        w += n;
        if n < left {
            return Written {
                keys: w,
                more: true,
            };
        }
        from = 0;
    }
    Written {
        keys: w,
        more: false,
    }
}
