// The climb to the smallest window round a segment that is within limits, one entry of the table a level.
ghost use Rattle.std.specs.Prelude.{◌≡◌, ℕ, ◌+◌, ◌*◌, ◌^◌, ◌≤◌, ◌<◌, List, [], length, set, get_or, IfSome};
ghost use Rattle.slots.specs.Segments.{Segments};
ghost use Rattle.levels.specs.Tables.{table_of};
ghost use Rattle.rules.specs.Shares.{within};
ghost use Rattle.shares.specs.Rows.{shares_at, Fetched};
ghost use Rattle.climbs.specs.Climbs.{Tabled, Climbed};

use crate::Climb;
use shares::Shape;

// Whether a window of `size` segments, which is level `level`, is within limits with so many keys.
fn fits(shape: Shape, level: usize, size: usize, keys: usize) -> bool
    requires { (1 ≤ shape.height) × (shape.height ≤ 6) × (level ≤ shape.height) × (size ≡ 2 ^ level) × (size ≤ 64) × Fetched (shares_at shape) shape }
    ensures { result ≡ within (shares_at shape) level keys }
{
    let low = usize::from(shape.levels.lows[level]);
    let high = usize::from(shape.levels.highs[level]);
    size * low <= keys && keys <= size * high
}

// From level 1 upward, the first window round segment `seg` that is within limits. The request done, it has `grown` keys more and `gone` fewer.
pub fn climb(table: &[usize], shape: Shape, seg: usize, grown: usize, gone: usize) -> Option<Climb>
    requires { (1 ≤ shape.height) × (shape.height ≤ 6) × (seg < 2 ^ shape.height) × Fetched (shares_at shape) shape × Tabled shape.height seg gone table.now × (grown ≤ 1) }
    ensures range { IfSome result (λ c. (1 ≤ c.level) × (c.level ≤ shape.height) × (c.keys ≤ 4097)) }
    ensures window { (ss : Segments) (new : List ℕ) → length ss ≡ 2 ^ shape.height → table.now ≡ table_of shape.height ss → length new + gone ≡ length (get_or ss seg []) + grown → Climbed (shares_at shape) seg (set ss seg new) result }
{
    let h = shape.height;
    let n = table.len() / 2 + 1;
    let mut e = seg;
    let mut level = 0;
    let mut size = 1;
    // A loop that yields by `break`: document 01 names this form for the climb.
    let found = loop {
        if h <= level {
            break None;
        }
        level += 1;
        size *= 2;
        e = n + e / 2;
        let keys = table[e] + grown - gone;
        if fits(shape, level, size, keys) {
            break Some(Climb { level, keys });
        }
    };
    found
}
