// Where gaps end: one at a time, and by sixteens.
ghost use Rattle.std.specs.Prelude.{◌≡◌, ℕ, ◌+◌, ◌≤◌, ◌<◌, T, length, get_or};
ghost use Rattle.reading.specs.Stretches.{AllGaps};

// The bits of some slots, all together: where there are none, all are gaps.
fn bits(part: &[u64]) -> u64
    ensures { result ≡ 0 → (k : ℕ) → k < length part.now → get_or part.now k 0 ≡ 0 }
{
    part.iter().fold(0, |all, x| all | x)
}

// The first slot from `a` up to `e` that is no gap; `e` where there is none: one at a time.
pub fn gaps_rest(list: &[u64], a: usize, e: usize) -> usize
    requires { (a ≤ e) × (e ≤ length list.now) }
    ensures { AllGaps list.now a e result }
{
    for i in a..e {
        if list[i] != 0 {
            return i;
        }
    }
    e
}

// No key from slot `a` up to `e`, which is eight slots on or more: by sixteens; the last sixteen may overlap those before, and are no whole
// sixteen read again.
// Fewer than sixteen are two eights, which may overlap. Parts of a length that is known: the compiler takes the slots of each at once.
fn all_gaps(list: &[u64], a: usize, e: usize) -> bool
    requires { (a + 8 ≤ e) × (e ≤ length list.now) }
    ensures { T result → AllGaps list.now a e e }
{
    if e < a + 16 {
        return (bits(&list[a..a + 8]) | bits(&list[e - 8..e])) == 0;
    }
    for k in 0..(e - a - 1) / 16 {
        let i = a + 16 * k;
        if bits(&list[i..i + 16]) != 0 {
            return false;
        }
    }
    bits(&list[e - 16..e]) == 0
}

// The first slot from `a` up to `e` that is no gap; `e` where there is none. The one that is no gap is looked for where there is one.
pub fn gaps_end(list: &[u64], a: usize, e: usize) -> usize
    requires { (a ≤ e) × (e ≤ length list.now) }
    ensures { AllGaps list.now a e result }
{
    if a + 8 <= e && all_gaps(list, a, e) {
        return e;
    }
    gaps_rest(list, a, e)
}
