// A gap opened or closed among keys, and slots cleared, each with the cards beside them.
#![tactic(auto)]

ghost use Rattle.std.specs.Prelude.{◌≡◌, ◌≤◌, ◌<◌, length};
ghost use Rattle.gaps.specs.Gaps.{cleared, opened, closed};

// Writes 0 from index `a` up to index `e`, in slots and cards.
pub fn clear(part: &mut [u64], cards: &mut [u32], a: usize, e: usize)
    requires a_le_e { (a ≤ e) × (e ≤ length part.old) }
    requires cards_len { length cards.old ≡ length part.old }
    ensures slots { part.new ≡ cleared a e 0 part.old }
    ensures cards { cards.new ≡ cleared a e 0 cards.old }
{
    part[a..e].fill(0);
    cards[a..e].fill(0);
}

// In a part whose first `n` slots are keys: `v` put in front of key `at`, with its card.
pub fn open_gap(part: &mut [u64], cards: &mut [u32], n: usize, at: usize, v: u64, card: u32)
    requires at_le_n { (at ≤ n) × (n < length part.old) }
    requires cards_len { length cards.old ≡ length part.old }
    ensures slots { part.new ≡ opened n at v part.old }
    ensures cards { cards.new ≡ opened n at card cards.old }
{
    moves::move_right(part, cards, at, at + 1, n - at);
    part[at] = v;
    cards[at] = card;
}

// In a part whose first `n` slots are keys: key `at` taken out, with its card.
pub fn close_gap(part: &mut [u64], cards: &mut [u32], n: usize, at: usize)
    requires at_lt_n { (at < n) × (n ≤ length part.old) }
    requires cards_len { length cards.old ≡ length part.old }
    ensures slots { part.new ≡ closed 0 n at part.old }
    ensures cards { cards.new ≡ closed 0 n at cards.old }
{
    moves::move_left(part, cards, at + 1, at, n - at - 1);
    part[n - 1] = 0;
    cards[n - 1] = 0;
}
