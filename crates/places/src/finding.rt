// Finding the segment of a key, and its place in the segment, by halving. Segments may be empty.
ghost use Rattle.std.specs.Prelude.{◌≡◌, ◌+◌, ◌*◌, ◌/◌, ◌≤◌, ◌<◌, T, length};
ghost use Rattle.slots.specs.Segments.{Segments};
ghost use Rattle.slots.specs.Keys.{Rising, below};
ghost use Rattle.slots.specs.Shown.{Shows, seat, Located};
ghost use Rattle.slots.specs.Stretches.{Filled, Stands};

use crate::counting::count_keys;
use slots::Place;

// How many slots of a part, where they rise, are below `key`.
pub fn position(part: &[u64], key: u64) -> usize
    ensures range { result ≤ length part.now }
    ensures place { Rising part.now → result ≡ length (below key part.now) }
{
    part.partition_point(|x| *x < key)
}

// Of the segments from `a` to `mid`, the last that is not empty; `a` where all after it are empty.
fn last_filled(list: &[u64], a: usize, mid: usize) -> usize
    requires { (a ≤ mid) × (64 * mid + 64 ≤ length list.now) }
    ensures { Filled list.now a mid result }
{
    for s in (a + 1..mid + 1).rev() {
        if list[64 * s] != 0 {
            return s;
        }
    }
    a
}

// The segment where a search for `key` ends: that of the key, or of its predecessor.
pub fn find_segment(list: &[u64], key: u64) -> usize
    requires { 64 ≤ length list.now }
    ensures range { 64 * result + 64 ≤ length list.now }
    ensures place { (ss : Segments) → Shows ss list.now → result ≡ seat key ss }
{
    // Segments from `best` + 1 up to `a` are empty, and those from `b` on begin above `key`.
    // By hand: empty segments are passed over on the way, so that std's halving does not fit.
    let mut best = 0;
    let mut a = 0;
    let mut b = list.len() / 64;
    while a < b {
        let mid = a + (b - a) / 2;
        let s = last_filled(list, a, mid);
        let head = list[64 * s];
        if head == 0 {
            a = mid + 1;
        } else if head <= key {
            best = s;
            a = mid + 1;
        } else {
            b = s;
        }
    }
    best
}

// Where a search for `key` ends, with what the segment holds there.
pub fn locate(list: &[u64], key: u64) -> Place
    requires { 64 ≤ length list.now }
    ensures range { (64 * result.segment + 64 ≤ length list.now) × (result.at ≤ result.held) × (result.held ≤ 64) }
    ensures place { (ss : Segments) → Shows ss list.now → Located key ss result }
{
    let segment = find_segment(list, key);
    let part = &list[64 * segment..64 * segment + 64];
    let held = count_keys(part);
    let at = position(&part[..held], key);
    let present = at < held && part[at] == key;
    Place {
        segment,
        held,
        at,
        present,
    }
}

// Segment `segment` holds `key`, as a halving of its 64 slots finds it with gaps taken for high; false where there is no such segment.
pub fn stands_in(list: &[u64], segment: usize, key: u64) -> bool
    ensures { T result → Stands list.now segment key }
{
    if list.len() / 64 <= segment {
        return false;
    }
    let part = &list[64 * segment..64 * segment + 64];
    let at = part.partition_point(|x| x.wrapping_sub(1) < key);
    0 < at && part[at - 1] == key
}
