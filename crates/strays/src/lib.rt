// Refusal 13: a card in a gap.
#![tactic(auto)]

ghost use Rattle.std.specs.Prelude.{◌≡◌, List, ℕ, ◌+◌, ◌*◌, ◌≤◌, ◌<◌, length, get_or};
ghost use Rattle.slots.specs.Segments.{Segments};
ghost use Rattle.slots.specs.Shown.{Shows, CountsOf};
ghost use Rattle.rules.specs.Cards.{gap_card};
ghost use Rattle.strays.specs.Blanks.{Gathers};

// Cards together, in four lanes: all are 0 where each lane is.
// Four numbers, not one by a fold: in one, the cards of 64 segments half full take 4,000 instructions in place of 2,300.
#[derive(Clone, Copy, PartialEq, Eq, Debug)]
pub struct Lanes {
    pub w: u32,
    pub x: u32,
    pub y: u32,
    pub z: u32,
}

// With the eight cards from `i` on.
fn eight(cards: &[u32], i: usize, l: Lanes) -> Lanes
    requires { i + 8 ≤ length cards.now }
    ensures { Gathers cards.now i (i + 8) l result }
{
    Lanes {
        w: l.w | cards[i] | cards[i + 4],
        x: l.x | cards[i + 1] | cards[i + 5],
        y: l.y | cards[i + 2] | cards[i + 6],
        z: l.z | cards[i + 3] | cards[i + 7],
    }
}

// With the sixteen.
fn sixteen(cards: &[u32], i: usize, l: Lanes) -> Lanes
    requires { i + 16 ≤ length cards.now }
    ensures { Gathers cards.now i (i + 16) l result }
{
    eight(cards, i + 8, eight(cards, i, l))
}

// With the last cards of a segment, from `c` on: one at a time.
fn few(cards: &[u32], c: usize, l: Lanes) -> Lanes
    requires { (c ≤ 64) × (length cards.now ≡ 64) }
    ensures { Gathers cards.now c 64 l result }
{
    let mut all = l;
    for i in c..64 {
        all.w |= cards[i];
    }
    all
}

// The same of fewer than 16: by eights; the first eight may overlap the last.
fn short(cards: &[u32], c: usize, l: Lanes) -> Lanes
    requires { (48 < c) × (c ≤ 64) × (length cards.now ≡ 64) }
    ensures { Gathers cards.now c 64 l result }
{
    if 56 < c {
        return few(cards, c, l);
    }
    eight(cards, 56, eight(cards, c, l))
}

// The same of any number: by sixteens from the end; the first sixteen may overlap those after.
fn together(cards: &[u32], c: usize, l: Lanes) -> Lanes
    requires { (c ≤ 64) × (length cards.now ≡ 64) }
    ensures { Gathers cards.now c 64 l result }
{
    if 48 < c {
        return short(cards, c, l);
    }
    let mut all = sixteen(cards, 48, l);
    if c <= 32 {
        all = sixteen(cards, 32, all);
        if c <= 16 {
            all = sixteen(cards, 16, all);
        }
    }
    sixteen(cards, c, all)
}

// Whether a gap has a card, where segment s of n has counts[s] keys.
pub fn stray(cards: &[u32], counts: &[usize], n: usize) -> bool
    requires { (length cards.now ≡ 64 * n) × (n ≤ length counts.now) × ((k : ℕ) → k < n → get_or counts.now k 0 ≤ 64) }
    ensures { (ss : Segments) (slots : List ℕ) → Shows ss slots → length ss ≡ n → CountsOf ss counts.now → result ≡ gap_card slots cards.now }
{
    let mut all = Lanes {
        w: 0,
        x: 0,
        y: 0,
        z: 0,
    };
    for s in 0..n {
        all = together(&cards[64 * s..64 * s + 64], counts[s], all);
    }
    (all.w | all.x | all.y | all.z) != 0
}
