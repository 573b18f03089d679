// One number of keys for the left half tried, and the nearer of two.
ghost use Rattle.std.specs.Prelude.{◌≡◌, ◌+◌, ◌-◌, ◌≤◌};
ghost use Rattle.stretches.specs.Tries.{Halves, tried_with, nearer_of};

use crate::Tried;

// Of m keys, i go into the left of two halves of c slots each, with these weights left and right.
pub fn try_at(left: usize, right: usize, c: usize, m: usize, i: usize) -> Tried
    requires { (left ≤ 300) × (right ≤ 300) × Halves c m i i }
    ensures { (result ≡ tried_with left right c m i) × (result.num ≤ 614400) × (result.den ≤ 4194304) }
{
    let x = c - i;
    let y = c + i - m;
    Tried {
        keys: i,
        num: (left * y).abs_diff(right * x),
        den: x * y,
    }
}

// The one with the smaller distance, and a where they are equal.
pub fn nearer(a: Tried, b: Tried) -> Tried
    requires { (a.num ≤ 614400) × (a.den ≤ 4194304) × (b.num ≤ 614400) × (b.den ≤ 4194304) }
    ensures { result ≡ nearer_of a b }
{
    if b.num * a.den < a.num * b.den { b } else { a }
}
