// Movement of slots and of the cards beside them, by positions and counts alone.
#![tactic(auto)]

ghost use Rattle.std.specs.Prelude.{◌≡◌, ◌+◌, ◌≤◌, length};
ghost use Rattle.moves.specs.Moves.{moved};

// Copies fewer slots than four, to either side. A call of its own keeps the registers of the loops below free.
#[inline(never)]
fn few(part: &mut [u64], cards: &mut [u32], from: usize, to: usize, count: usize)
    requires in_bounds { (from + count ≤ length part.old) × (to + count ≤ length part.old) }
    requires cards_len { length cards.old ≡ length part.old }
    ensures slots { part.new ≡ moved from to count part.old }
    ensures cards { cards.new ≡ moved from to count cards.old }
{
    part.copy_within(from..from + count, to);
    cards.copy_within(from..from + count, to);
}

// Copies `count` slots and their cards from index `from` to index `to`, which is no further right. Four at a time; the last four, which may overlap
// those before, are read first and written last.
pub fn move_left(part: &mut [u64], cards: &mut [u32], from: usize, to: usize, count: usize)
    requires to_le_from { (to ≤ from) × (from + count ≤ length part.old) }
    requires cards_len { length cards.old ≡ length part.old }
    ensures slots { part.new ≡ moved from to count part.old }
    ensures cards { cards.new ≡ moved from to count cards.old }
{
    match count {
        0 => return,
        1..=3 => return few(part, cards, from, to, count),
        _ => {}
    }
    let e = count - 4;
    let four = fours::read_four(part, from + e);
    let theirs = fours::read_four(cards, from + e);
    for k in 0..(count - 1) / 4 {
        fours::move_four(part, from + 4 * k, to + 4 * k);
        fours::move_four(cards, from + 4 * k, to + 4 * k);
    }
    fours::put_four(part, to + e, four);
    fours::put_four(cards, to + e, theirs);
}

// Copies `count` slots and their cards from index `from` to index `to`, which is no further left. Four at a time; the first four, which may overlap
// those after, are read first and written last.
pub fn move_right(part: &mut [u64], cards: &mut [u32], from: usize, to: usize, count: usize)
    requires from_le_to { (from ≤ to) × (to + count ≤ length part.old) }
    requires cards_len { length cards.old ≡ length part.old }
    ensures slots { part.new ≡ moved from to count part.old }
    ensures cards { cards.new ≡ moved from to count cards.old }
{
    match count {
        0 => return,
        1..=3 => return few(part, cards, from, to, count),
        _ => {}
    }
    let four = fours::read_four(part, from);
    let theirs = fours::read_four(cards, from);
    // Down by fours: a range stepped by four tests twice a turn, and random inserts take 4 per cent more instructions.
    let mut i = count;
    while 4 < i {
        i -= 4;
        fours::move_four(part, from + i, to + i);
        fours::move_four(cards, from + i, to + i);
    }
    fours::put_four(part, to, four);
    fours::put_four(cards, to, theirs);
}
