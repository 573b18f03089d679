// A key's place in its segment, in six steps, and where a search for it ends.
ghost use Rattle.std.specs.Prelude.{◌≡◌, ◌+◌, ◌<◌, ◌≤◌, length};
ghost use Rattle.slots.specs.Segments.{segments_of};
ghost use Rattle.seats.specs.Bounds.{Indexed};
ghost use Rattle.seats.specs.Halves.{halved};
ghost use Rattle.seeking.specs.Spots.{less_one, key_up_to, place_at, before_at, Spotted};

use crate::Spot;
use slots::Place;

// One less; the largest number for 0.
fn less_one(x: u64) -> u64
    ensures { result ≡ less_one x }
{
    x.wrapping_sub(1)
}

// The last slot of the segment at `a` that holds a key up to `key`, or `a`.
pub fn place_in(list: &[u64], a: usize, key: u64) -> usize
    requires { a + 64 ≤ length list.now }
    ensures range { (a ≤ result) × (result < a + 64) }
    ensures place { result ≡ halved (key_up_to list.now key) a }
{
    let mut at = a;
    // By steps and not by std's halving, whose promise asks for slots that rise: these may be any.
    for step in [32, 16, 8, 4, 2, 1] {
        if less_one(list[at + step]) < key {
            at += step;
        }
    }
    at
}

// The place of `key` in a segment, where slot `rest` is the last with a key up to it and holds `found`.
fn place_at(rest: usize, found: u64, key: u64) -> usize
    requires { rest < 64 }
    ensures { result ≡ place_at rest found key }
{
    if less_one(found) < key && found < key {
        return rest + 1;
    }
    rest
}

// The key before `key`, where the last slot with a key up to it holds `found`; 0 where no slot has one.
fn before_at(found: u64, key: u64) -> u64
    ensures { result ≡ before_at found key }
{
    if less_one(found) < key {
        return found;
    }
    0
}

// Where a search for `key` ends, with the key before it where it is not live.
pub fn spot(list: &[u64], table: &[usize], bounds: &[u64], key: u64) -> Spot
    requires { Indexed (segments_of list.now) list.now bounds.now table.now × (0 < key) }
    ensures { Spotted key (segments_of list.now) list.now result }
{
    let segment = seats::seat_of(bounds, key);
    let held = table[segment];
    let a = 64 * segment;
    let rest = place_in(list, a, key);
    let found = list[rest];
    let at = place_at(rest - a, found, key);
    let before = before_at(found, key);
    Spot {
        place: Place {
            segment,
            held,
            at,
            present: found == key,
        },
        before,
    }
}
