// Counts of segments changed: the levels above summed anew where they stand over them.
ghost use Rattle.std.specs.Prelude.{◌≡◌, ℕ, ◌+◌, ◌-◌, ◌*◌, ◌^◌, ◌≤◌, ◌<◌, map, length, take, get_or};
ghost use Rattle.slots.specs.Segments.{Segments};
ghost use Rattle.levels.specs.Tables.{table_of};
ghost use Rattle.tables.specs.Kept.{Loose};
ghost use Rattle.tables.specs.Tree.{SumsBut, Resummed};

// Entries `a` to `z`, of one level, from their halves.
fn sum_level(table: &mut [usize], n: usize, a: usize, z: usize)
    requires { (n ≤ a) × (a ≤ z) × (2 * (z - n) + 1 < a) × (z + 1 < 2 * n) × (length table.old + 1 ≡ 2 * n) × ((k : ℕ) → get_or table.old k 0 ≤ 262144) }
    ensures { Resummed n a z table.old table.new }
{
    for x in a..=z {
        let i = 2 * (x - n);
        table[x] = table[i] + table[i + 1];
    }
}

// The levels above level 0, of `n` entries, where entries `first` to `last` of it have changed.
pub fn sum_over(table: &mut [usize], n: usize, first: usize, last: usize)
    requires { Loose n table.old × (first ≤ last) × (last < n) }
    ensures { (h : ℕ) (ss : Segments) → n ≡ 2 ^ h → length ss ≡ n → SumsBut n first last table.old → take n table.old ≡ map length ss → table.new ≡ table_of h ss }
{
    // By index: each turn goes to the level over the last one, where half as many entries have changed.
    let mut a = first;
    let mut z = last;
    while z + 2 < 2 * n {
        a = n + a / 2;
        z = n + z / 2;
        sum_level(table, n, a, z);
    }
}
