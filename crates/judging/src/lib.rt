// Refusal 14: a table of the wrong length or with a wrong entry.
#![tactic(auto)]

ghost use Rattle.std.specs.Prelude.{◌≡◌, ℕ, ◌+◌, ◌*◌, ◌^◌, ◌≤◌, ◌<◌, length, get_or};
ghost use Rattle.slots.specs.Segments.{Segments};
ghost use Rattle.slots.specs.Shown.{CountsOf};
ghost use Rattle.levels.specs.Tables.{table_of};
ghost use Rattle.tables.specs.Tree.{Sums};
ghost use Rattle.judging.specs.Answers.{Answers};

// Whether each entry above level 0 is the sum of its halves.
fn sums_right(table: &[usize], n: usize) -> bool
    requires { (1 ≤ n) × (n ≤ 64) × (length table.now + 1 ≡ 2 * n) × ((k : ℕ) → k < n → get_or table.now k 0 ≤ 64) }
    ensures { Answers (Sums n table.now) result }
{
    for i in 0..n - 1 {
        if table[n + i] != table[2 * i] + table[2 * i + 1] {
            return false;
        }
    }
    true
}

// Whether the table is right for the list whose `n` segments have these counts.
pub fn is_right(table: &[usize], counts: &[usize], n: usize) -> bool
    requires { (1 ≤ n) × (n ≤ 64) × (n ≤ length counts.now) × ((k : ℕ) → k < n → get_or counts.now k 0 ≤ 64) }
    ensures { (h : ℕ) (ss : Segments) → n ≡ 2 ^ h → length ss ≡ n → CountsOf ss counts.now → Answers (table.now ≡ table_of h ss) result }
{
    table.len() + 1 == 2 * n && table[..n] == counts[..n] && sums_right(table, n)
}
