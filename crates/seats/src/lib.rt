// A search by the bounds of segments, one less than the first key from each segment on: a key's segment, by halving.
#![tactic(auto)]

ghost use Rattle.std.specs.Prelude.{◌≡◌, ◌≤◌, ◌<◌, length};
ghost use Rattle.slots.specs.Segments.{Segments};
ghost use Rattle.slots.specs.Keys.{Listed};
ghost use Rattle.slots.specs.Shown.{seat};
ghost use Rattle.seats.specs.Bounds.{Bounded};

// The segment where a search for `key` ends: the last whose bound is below it, or the first.
pub fn seat_of(bounds: &[u64], key: u64) -> usize
    requires { length bounds.now ≡ 64 }
    ensures range { result < 64 }
    ensures place { (ss : Segments) → Listed ss → length ss ≤ 64 → Bounded 1 ss bounds.now → result ≡ seat key ss }
{
    bounds[1..64].partition_point(|bound| *bound < key)
}
