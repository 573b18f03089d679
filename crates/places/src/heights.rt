// The height of a list, by the number of its slots.
ghost use Rattle.std.specs.Prelude.{◌≡◌, ◌≤◌, MatchOption};
ghost use Rattle.slots.specs.Segments.{height_of};

// The height of a list of `n` slots; none where they are no list.
pub fn height_of(n: usize) -> Option<usize>
    ensures { MatchOption result (height_of n ≡ 0) (λ h. (h ≡ height_of n) × (1 ≤ h) × (h ≤ 6)) }
{
    match n {
        128 => Some(1),
        256 => Some(2),
        512 => Some(3),
        1024 => Some(4),
        2048 => Some(5),
        4096 => Some(6),
        _ => None,
    }
}
