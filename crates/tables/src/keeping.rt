// A table emptied, and a right one kept right: a segment one key longer or shorter.
ghost use Rattle.std.specs.Prelude.{◌≡◌, ℕ, ◌+◌, ◌^◌, ◌≤◌, ◌<◌, List, [], length, get_or, set, replicate};
ghost use Rattle.slots.specs.Segments.{Segments};
ghost use Rattle.levels.specs.Tables.{table_of};
ghost use Rattle.tables.specs.Kept.{Summed};

// Writes 0 in every entry.
pub fn clear(table: &mut [usize])
    ensures { table.new ≡ replicate (length table.old) 0 }
{
    table.fill(0);
}

// Changes by `f`, which computes `to`, the counts of segment `s`, of `n`, and of every window over it.
fn change<F: Fn(usize) -> usize>(table: &mut [usize], n: usize, s: usize, f: F)
    ghost to: { ℕ → ℕ }
    requires right { Summed n table.old × (s < n) }
    requires callable { (x : ℕ) → get_or table.old s 0 ≤ x → x ≤ 4096 → F.pre f x }
    requires gives { (x r : ℕ) → x ≤ 4096 → F.post f x r → r ≡ to x }
    ensures { (h : ℕ) (ss : Segments) (new : List ℕ) → n ≡ 2 ^ h → length ss ≡ n → table.old ≡ table_of h ss → ((b : ℕ) → to (length (get_or ss s []) + b) ≡ to (length (get_or ss s [])) + b) → length new ≡ to (length (get_or ss s [])) → table.new ≡ table_of h (set ss s new) }
{
    // By index: after an entry comes that of the window over it, and the root's leads past the end.
    let mut e = s;
    while e < table.len() {
        table[e] = f(table[e]);
        e = n + e / 2;
    }
}

// Segment `s` of `n` has one key more.
pub fn add_one(table: &mut [usize], n: usize, s: usize)
    requires { Summed n table.old × (s < n) }
    ensures { (h : ℕ) (ss : Segments) (new : List ℕ) → n ≡ 2 ^ h → length ss ≡ n → table.old ≡ table_of h ss → length new ≡ length (get_or ss s []) + 1 → table.new ≡ table_of h (set ss s new) }
{
    change(table, n, s, |count| count + 1);
}

// Segment `s` of `n`, which is not empty, has one key less.
pub fn take_one(table: &mut [usize], n: usize, s: usize)
    requires { Summed n table.old × (s < n) × (0 < get_or table.old s 0) }
    ensures { (h : ℕ) (ss : Segments) (new : List ℕ) → n ≡ 2 ^ h → length ss ≡ n → table.old ≡ table_of h ss → length new + 1 ≡ length (get_or ss s []) → table.new ≡ table_of h (set ss s new) }
{
    change(table, n, s, |count| count - 1);
}
