// Where slots stop rising: one at a time, and by eights.
ghost use Rattle.std.specs.Prelude.{◌+◌, ◌≤◌, length};
ghost use Rattle.reading.specs.Stretches.{Rises};

// The first slot of a part that is not above the slot before it, or above `last` at the first; their number where there is none.
pub fn rising(part: &[u64], last: u64) -> usize
    ensures { Rises part.now 0 (length part.now) last result }
{
    let mut top = last;
    for (i, &x) in part.iter().enumerate() {
        if x <= top {
            return i;
        }
        top = x;
    }
    part.len()
}

// Where the 64 slots from `a` on stop rising above `last`; `a` + 64 where they do not.
// By parts of a length that is known, which the compiler makes eight tests in a row.
pub fn rising_whole(list: &[u64], a: usize, last: u64) -> usize
    requires { a + 64 ≤ length list.now }
    ensures { Rises list.now a (a + 64) last result }
{
    let mut top = last;
    for k in 0..8 {
        let i = a + 8 * k;
        let r = rising(&list[i..i + 8], top);
        if r < 8 {
            return i + r;
        }
        top = list[i + 7];
    }
    a + 64
}
