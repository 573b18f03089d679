// The looks at a stretch of numbers between two marks: the distance falls up to the crossing of the two fractions and rises after it.
ghost use Rattle.std.specs.Prelude.{◌≡◌, ◌+◌, ◌≤◌, ◌<◌};
ghost use Rattle.stretches.specs.Tries.{Halves, Modest, Weighted, past_crossing, nearest_of};

use crate::{Stretch, Tried, trying};

// The first number from 1 up that is past the crossing.
fn past_crossing(left: usize, right: usize, c: usize, m: usize) -> usize
    requires { (left ≤ 300) × (right ≤ 300) × (0 < left + right) × (c ≤ 2048) × (m ≤ 4096) }
    ensures { (result ≡ past_crossing left right c m) × (1 ≤ result) }
{
    (right * c + left * m).saturating_sub(left * c) / (left + right) + 1
}

// Of a stretch only the two numbers round the crossing are looked at, the lower one first.
pub fn nearest(found: Tried, s: Stretch, c: usize, m: usize) -> Tried
    requires { Modest found × Weighted s × Halves c m s.first s.last }
    ensures range { Modest result }
    ensures nearest { result ≡ nearest_of found s c m }
{
    let past = past_crossing(s.left, s.right, c, m);
    let lower = (past - 1).clamp(s.first, s.last);
    let upper = past.clamp(s.first, s.last);
    let near = trying::nearer(found, trying::try_at(s.left, s.right, c, m, lower));
    if lower == upper {
        return near;
    }
    trying::nearer(near, trying::try_at(s.left, s.right, c, m, upper))
}
