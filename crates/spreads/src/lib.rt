// The keys of a window of segments, packed at its front and dealt out again, in place, each with its card.
#![tactic(auto)]

ghost use Rattle.std.specs.Prelude.{◌≡◌, map, ℕ, ◌+◌, ◌*◌, ◌≤◌, ◌<◌, length, get_or, take, drop};
ghost use Rattle.std.proofs.Math.Seq.{paste};
ghost use Rattle.lists.specs.Lists.{total, deal, insert_at};
ghost use Rattle.slots.specs.Layout.{render};
ghost use Rattle.moves.specs.Moves.{Packed};
ghost use Rattle.spreads.specs.Newcomers.{entered, Among, Carded};

// A key that is put in while the keys of a window are dealt out: its place among them and its card.
#[derive(Clone, Copy)]
pub struct Newcomer {
    pub place: usize,
    pub key: u64,
    pub card: u32,
}

// The keys of all segments moved to the front of the window, in place; the answer is how many.
pub fn pack(window: &mut [u64], cards: &mut [u32], counts: &[usize]) -> usize
    requires window_len { length window.old ≡ 64 * length counts.now }
    requires by_index { (k : ℕ) → get_or counts.now k 0 ≤ 64 }
    requires cards_len { length cards.old ≡ length window.old }
    ensures keys { Packed counts.now window.old result window.new }
    ensures cards { (f : ℕ → ℕ) → cards.old ≡ map f window.old → cards.new ≡ map f window.new }
{
    let mut at = 0;
    for (s, &c) in counts.iter().enumerate() {
        moves::move_left(window, cards, 64 * s, at, c);
        at += c;
    }
    at
}

// Copies `c` slots from index `at` on to index `to`, which is no further left, as they are once the newcomer is put in.
fn lay_in(window: &mut [u64], cards: &mut [u32], at: usize, to: usize, c: usize, newcomer: Newcomer)
    requires at_le_to { (at ≤ to) × (to + c ≤ length window.old) }
    requires cards_len { length cards.old ≡ length window.old }
    ensures keys { window.new ≡ paste window.old to (drop at (insert_at newcomer.place newcomer.key window.old)) c }
    ensures cards { (f : ℕ → ℕ) → f newcomer.key ≡ newcomer.card → cards.old ≡ map f window.old → cards.new ≡ map f window.new }
{
    let p = newcomer.place;
    if p < at {
        moves::move_right(window, cards, at - 1, to, c);
        return;
    }
    let x = p - at;
    if x < c {
        moves::move_right(window, cards, p, to + x + 1, c - 1 - x);
        window[to + x] = newcomer.key;
        cards[to + x] = newcomer.card;
        moves::move_right(window, cards, at, to, x);
        return;
    }
    moves::move_right(window, cards, at, to, c);
}

// The same whether there is a newcomer or none.
fn lay(
    window: &mut [u64],
    cards: &mut [u32],
    at: usize,
    to: usize,
    c: usize,
    newcomer: Option<Newcomer>,
)
    requires at_le_to { (at ≤ to) × (to + c ≤ length window.old) }
    requires cards_len { length cards.old ≡ length window.old }
    ensures keys { window.new ≡ paste window.old to (drop at (entered newcomer window.old)) c }
    ensures cards { (f : ℕ → ℕ) → Carded f newcomer → cards.old ≡ map f window.old → cards.new ≡ map f window.new }
{
    match newcomer {
        Some(newcomer) => lay_in(window, cards, at, to, c, newcomer),
        None => moves::move_right(window, cards, at, to, c),
    }
}

// The first `m` slots, once the newcomer is put in if there is one, dealt out to segments of so many keys each, in place. `m` is the
// total of the counts, which the caller has from `pack`.
pub fn spread(
    window: &mut [u64],
    cards: &mut [u32],
    counts: &[usize],
    m: usize,
    newcomer: Option<Newcomer>,
)
    requires window_len { length window.old ≡ 64 * length counts.now }
    requires by_index { (k : ℕ) → get_or counts.now k 0 ≤ 64 }
    requires counts_value { (total counts.now ≡ m) × Among m newcomer }
    requires cards_len { length cards.old ≡ length window.old }
    ensures keys { window.new ≡ render 0 (deal counts.now (take m (entered newcomer window.old))) }
    ensures cards { (f : ℕ → ℕ) → f 0 ≡ 0 → Carded f newcomer → cards.old ≡ map f window.old → cards.new ≡ map f window.new }
{
    let mut at = m;
    // By index: the segments go from the last to the first, each after those behind it.
    for s in (0..counts.len()).rev() {
        let c = counts[s];
        let to = 64 * s;
        at -= c;
        lay(window, cards, at, to, c, newcomer);
        gaps::clear(window, cards, to + c, to + 64);
    }
}
