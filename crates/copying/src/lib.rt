// Slots and cards of a list copied into two outputs, four at a time: std's copy would be a call of the C library's `memmove`, which no other
// call of the archive needs.
#![tactic(auto)]

ghost use Rattle.std.specs.Prelude.{◌≡◌, ◌+◌, ◌≤◌, length, drop};
ghost use Rattle.std.proofs.Math.Seq.{paste};

// As copy, one slot at a time.
fn few(
    list: &[u64],
    cards: &[u32],
    a: usize,
    n: usize,
    output: &mut [u64],
    output_cards: &mut [u32],
    w: usize,
)
    requires n_in_bounds { (a + n ≤ length list.now) × (w + n ≤ length output.old) }
    requires n_in_bounds_2 { (a + n ≤ length cards.now) × (w + n ≤ length output_cards.old) }
    ensures slots { output.new ≡ paste output.old w (drop a list.now) n }
    ensures cards { output_cards.new ≡ paste output_cards.old w (drop a cards.now) n }
{
    for i in 0..n {
        output[w + i] = list[a + i];
        output_cards[w + i] = cards[a + i];
    }
}

// Copies `n` slots of `list` and their cards from slot `a` on into the outputs, from place `w` on. Four at a time; the last four
// may overlap those before, and hold the same there.
pub fn copy(
    list: &[u64],
    cards: &[u32],
    a: usize,
    n: usize,
    output: &mut [u64],
    output_cards: &mut [u32],
    w: usize,
)
    requires n_in_bounds { (a + n ≤ length list.now) × (w + n ≤ length output.old) }
    requires n_in_bounds_2 { (a + n ≤ length cards.now) × (w + n ≤ length output_cards.old) }
    ensures slots { output.new ≡ paste output.old w (drop a list.now) n }
    ensures cards { output_cards.new ≡ paste output_cards.old w (drop a cards.now) n }
{
    if n < 4 {
        return few(list, cards, a, n, output, output_cards, w);
    }
    for k in 0..(n - 1) / 4 {
        let i = 4 * k;
        fours::put_four(output, w + i, fours::read_four(list, a + i));
        fours::put_four(output_cards, w + i, fours::read_four(cards, a + i));
    }
    let e = n - 4;
    fours::put_four(output, w + e, fours::read_four(list, a + e));
    fours::put_four(output_cards, w + e, fours::read_four(cards, a + e));
}
