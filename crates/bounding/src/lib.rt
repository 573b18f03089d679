// The bounds of segments: built for a list, and rewritten where its segments changed, as code.
#![tactic(auto)]

ghost use Rattle.std.specs.Prelude.{◌≡◌, ℕ, ◌*◌, ◌/◌, ◌≤◌, ◌<◌, length, get_or};
ghost use Rattle.slots.specs.Segments.{Segments};
ghost use Rattle.slots.specs.Shown.{Shows};
ghost use Rattle.seats.specs.Bounds.{top, bound_at, bound_by, bounds_of, Bounded, Near};

// The bound of a segment that begins with the slot `head`, where that of the next is `later`.
fn bound_by(head: u64, later: u64) -> u64
    ensures { result ≡ bound_by head later }
{
    head.checked_sub(1).unwrap_or(later)
}

// The bound after segment `e`: none where it is the last.
fn bound_from(bounds: &[u64], e: usize) -> u64
    ensures { (e < length bounds.now → result ≡ get_or bounds.now e 0) × (length bounds.now ≤ e → result ≡ top) }
{
    bounds.get(e).copied().unwrap_or(u64::MAX)
}

// The bounds of the segments from `a` up to `e`, where that of `e` is `later`; the answer is that of `a`.
fn rebound_from(list: &[u64], bounds: &mut [u64], a: usize, e: usize, later: u64) -> u64
    requires { (a ≤ e) × (e ≤ 64) × (64 * e ≤ length list.now) × (length bounds.old ≡ 64) }
    ensures { (m : ℕ) (ss : Segments) → Shows ss list.now → Near m ss a e bounds.old → later ≡ bound_at ss e → Near m ss a a bounds.new × (result ≡ bound_at ss a) }
{
    let mut b = later;
    for s in (a..e).rev() {
        b = bound_by(list[64 * s], b);
        bounds[s] = b;
    }
    b
}

// The bounds of the empty segments before segment `a`, whose own is `b`.
fn rebound_before(list: &[u64], bounds: &mut [u64], a: usize, b: u64)
    requires { (a ≤ 64) × (64 * a ≤ length list.now) × (length bounds.old ≡ 64) }
    ensures { (m : ℕ) (ss : Segments) → Shows ss list.now → Near m ss a a bounds.old → b ≡ bound_at ss a → Bounded m ss bounds.new }
{
    for s in (0..a).rev() {
        if list[64 * s] != 0 {
            return;
        }
        bounds[s] = b;
    }
}

// The bounds of the segments from `a` up to `e`, and of the empty ones before them.
pub fn rebound(list: &[u64], bounds: &mut [u64], a: usize, e: usize)
    requires { (a < e) × (e ≤ 64) × (64 * e ≤ length list.now) × (length bounds.old ≡ 64) }
    ensures { (m : ℕ) (ss : Segments) → m ≤ e → Shows ss list.now → length ss ≤ 64 → Near m ss a e bounds.old → Bounded m ss bounds.new }
{
    let later = bound_from(bounds, e);
    let b = rebound_from(list, bounds, a, e, later);
    rebound_before(list, bounds, a, b);
}

// The bounds of a list's segments, into 64 places; those past the segments are the largest number already.
pub fn bound(list: &[u64], bounds: &mut [u64])
    requires list_len_bound { (length list.now ≤ 4096) × (length bounds.old ≡ 64) }
    requires by_index { (k : ℕ) → length list.now / 64 ≤ k → k < 64 → get_or bounds.old k 0 ≡ top }
    ensures { (ss : Segments) → Shows ss list.now → bounds.new ≡ bounds_of ss }
{
    rebound_from(list, bounds, 0, list.len() / 64, u64::MAX);
}
