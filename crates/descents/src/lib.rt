// Finding the segment of a key by the table.
#![tactic(auto)]

ghost use Rattle.std.specs.Prelude.{◌≡◌, ◌≢◌, ℕ, ◌+◌, ◌*◌, ◌^◌, ◌<◌, length, get_or};
ghost use Rattle.slots.specs.Segments.{Segments};
ghost use Rattle.slots.specs.Shown.{Shows, seat};
ghost use Rattle.levels.specs.Tables.{table_of};
ghost use Rattle.tables.specs.Tree.{Sums};
ghost use Rattle.descents.specs.Covers.{Covers, FirstIn};

// The first segment under entry `e` that is not empty, where there is one; `a` is the first of all under it.
fn first_in(table: &[usize], n: usize, e: usize, a: usize) -> usize
    requires { (length table.now + 1 ≡ 2 * n) × (e + 1 < 2 * n) }
    ensures range { result < n }
    ensures place { Sums n table.now → (m : ℕ) → Covers n e a m → get_or table.now e 0 ≢ 0 → FirstIn table.now a m result }
{
    if a < n && table[a] != 0 {
        return a;
    }
    // By index: after an entry comes one of its halves.
    let mut at = e;
    while n <= at {
        let left = 2 * (at - n);
        at = if table[left] == 0 { left + 1 } else { left };
    }
    at
}

// The segment, of `n`, where a search for `key` ends: that of the key, or of its predecessor.
pub fn seek(table: &[usize], list: &[u64], n: usize, key: u64) -> usize
    requires { (length table.now + 1 ≡ 2 * n) × (length list.now ≡ 64 * n) }
    ensures range { result < n }
    ensures place { (h : ℕ) (ss : Segments) → n ≡ 2 ^ h → Shows ss list.now → table.now ≡ table_of h ss → result ≡ seat key ss }
{
    // The segment is one of the `m` from `a` on, which are under entry `e`; by index, since one of its halves comes next.
    let mut e = 2 * n - 2;
    let mut a = 0;
    let mut m = n;
    while n <= e {
        let left = 2 * (e - n);
        let right = left + 1;
        m /= 2;
        // Two tests and not one: so the inner one is compiled without a branch.
        if table[right] == 0 {
            e = left;
        } else {
            let s = first_in(table, n, right, a + m);
            if list[64 * s] <= key {
                e = right;
                a += m;
            } else {
                e = left;
            }
        }
    }
    e
}
