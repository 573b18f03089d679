// Counting keys: those of one segment, which stand first in it, by halving; those of a stretch of segments by their counts.
ghost use Rattle.std.specs.Prelude.{◌≡◌, ℕ, ◌-◌, ◌*◌, ◌≤◌, ◌<◌, List, length, take, drop, get_or};
ghost use Rattle.lists.specs.Lists.{All, total, padded};

// How many keys a segment has.
pub fn count_keys(segment: &[u64]) -> usize
    ensures range { result ≤ length segment.now }
    ensures keys { (ks : List ℕ) → All (λ k. 0 < k) ks → length ks ≤ length segment.now → segment.now ≡ padded (length segment.now) 0 ks → result ≡ length ks }
{
    segment.partition_point(|x| *x != 0)
}

// The keys of the segments from `first` up to `end`, by the counts of the segments.
pub fn keys_in(counts: &[usize], first: usize, end: usize) -> usize
    requires { (first ≤ end) × (end - first ≤ 64) × (end ≤ length counts.now) × ((k : ℕ) → k < end → get_or counts.now k 0 ≤ 64) }
    ensures range { result ≤ 64 * (end - first) }
    ensures sum { result ≡ total (take (end - first) (drop first counts.now)) }
{
    counts[first..end].iter().sum()
}
