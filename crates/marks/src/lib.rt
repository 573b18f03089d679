// The marks of a window, found in the list as it stands before a request: the places that the keys that weigh will have, and their weights.
#![tactic(auto)]

ghost use Rattle.std.specs.Prelude.{◌≡◌, ℕ, ◌+◌, ◌-◌, ◌*◌, ◌<◌, ◌≤◌, [], map, length, take, get_or};
ghost use mathlib.Core.List.{Memᴰ as Mem};
ghost use Rattle.lists.specs.Lists.{insert_at};
ghost use Rattle.slots.specs.Segments.{Segments};
ghost use Rattle.slots.specs.Keys.{below};
ghost use Rattle.cells.specs.Cells.{weight};
ghost use Rattle.forecast.specs.Cells.{used_cells};
ghost use Rattle.forecast.specs.Tidy.{Tidy};
ghost use Rattle.stretches.specs.Marks.{Marked, places_of, weights_of};
ghost use Rattle.marks.specs.Marking.{after, Reached, Asked, Aims, Marking, OneMarked};

use cells::Cell;
use forecast::Forecast;
use places::counting::keys_in;
use places::finding::position;
use stretches::Mark;
use stretches::passing::mark_from;

// A window of segments, and the request in it: the first of them and how many, the key, and whether it is put in or taken out.
#[derive(Clone, Copy)]
pub struct Window {
    pub first: usize,
    pub n: usize,
    pub key: u64,
    pub grows: bool,
}

// `v` put in front of the mark at `k`; the last one goes.
pub fn put_in(xs: &mut [Mark], k: usize, v: Mark)
    requires { k < length xs.old }
    ensures { xs.new ≡ insert_at k v (take (length xs.old - 1) xs.old) }
{
    let last = xs.len() - 1;
    xs.copy_within(k..last, k + 1);
    xs[k] = v;
}

// Where `marker`, a key of segment `s` of the window, stands among the window's keys once the request is done.
fn place_of(list: &[u64], counts: &[usize], w: Window, s: usize, marker: u64) -> usize
    requires first_le_s { (w.first ≤ s) × (s < w.first + w.n) × (w.n ≤ 64) }
    requires n_in_bounds { Reached list.now counts.now w }
    ensures { (ss : Segments) → Asked list.now counts.now w ss → Mem marker (get_or ss s []) → result ≡ length (below marker (after w ss)) }
{
    let part = &list[64 * s..64 * s + 64];
    let p = keys_in(counts, w.first, s) + position(&part[..counts[s]], marker);
    if marker <= w.key {
        return p;
    }
    if w.grows {
        return p + 1;
    }
    // The key that is taken out is one of those below: there is one to take off.
    p.wrapping_sub(1)
}

// One cell's mark, if its marker is a key of the window; the answer is how many marks there are then.
fn mark_cell(
    list: &[u64],
    counts: &[usize],
    w: Window,
    cell: Cell,
    n: usize,
    row: &mut [Mark],
) -> usize
    requires n_bound { (w.n ≤ 64) × (n < length row.old) }
    requires n_in_bounds { Reached list.now counts.now w }
    ensures range { result ≤ n + 1 }
    ensures marks { (ss : Segments) → Asked list.now counts.now w ss → Aims w ss cell → OneMarked cell (after w ss) (places_of (take n row.old)) (weights_of (take n row.old)) (places_of (take result row.new)) (weights_of (take result row.new)) }
{
    let marker = cell.marker;
    let s = cell.segment;
    if marker == 0 || !(w.first..w.first + w.n).contains(&s) {
        return n;
    }
    let p = place_of(list, counts, w, s, marker);
    let k = mark_from(&row[..n], p);
    let mark = Mark {
        place: p,
        weight: cell.count,
    };
    put_in(&mut row[..n + 1], k, mark);
    n + 1
}

// The marks of the window's keys, as they will be with the request done, into `row`; the answer is how many.
pub fn mark(list: &[u64], counts: &[usize], f: Forecast, w: Window, row: &mut [Mark]) -> usize
    requires n_bound { (w.n ≤ 64) × (length row.old ≡ 12) }
    requires n_in_bounds { Reached list.now counts.now w }
    requires tidy { Tidy f }
    ensures range { result ≤ 12 }
    ensures marks { (ss : Segments) → Marking list.now counts.now f w ss → Marked (map (weight (used_cells f)) (after w ss)) (places_of (take result row.new)) (weights_of (take result row.new)) }
{
    let mut n = 0;
    for i in 0..f.used {
        n = mark_cell(list, counts, w, f.cell(i), n, row);
    }
    n
}
