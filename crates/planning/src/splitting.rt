// The split of a part of a swept window, and how many keys each of its segments gets.
ghost use Rattle.std.specs.Prelude.{◌≡◌, ℕ, suc, ◌+◌, ◌-◌, ◌*◌, ◌^◌, ◌≤◌, ◌<◌, List, length};
ghost use Rattle.rules.specs.Shares.{Shares};
ghost use Rattle.rules.specs.SharingOut.{formula6, least, left_share, plan};
ghost use Rattle.shares.specs.Rows.{Rows};
ghost use Rattle.stretches.specs.Marks.{places_of, weights_of};
ghost use Rattle.stretches.specs.Parts.{PartOf, weights_in};
ghost use Rattle.stretches.specs.Tries.{Halves};
ghost use Rattle.planning.specs.Plans.{Splits, Planned};

use crate::parting;
use stretches::{Mark, Part, Stretch, Tried, crossing, passing};

// Of the numbers from `first` to `last` the one that makes formula 6 least: stretches between marks, upward. A half has `c` slots.
fn scan(marks: &[Mark], part: Part, c: usize, first: usize, last: usize) -> usize
    requires by_index { (ws : List ℕ) × PartOf ws (places_of marks.now) (weights_of marks.now) part }
    requires halves { Halves c part.keys first last × (0 < part.all) }
    ensures range { (first ≤ result) × (result ≤ last) }
    ensures share { (ws : List ℕ) → PartOf ws (places_of marks.now) (weights_of marks.now) part → result ≡ least (formula6 c part.front (weights_in ws part)) first (last - first) }
{
    let mut passed = passing::pass(marks, part, first);
    // 1/0 is farther than any distance: no number is found yet.
    let mut found = Tried {
        keys: first,
        num: 1,
        den: 0,
    };
    let mut i = first;
    // Not one number after the other: the next stretch begins past the mark at which this one ends.
    loop {
        let end = passing::reach(marks, part, passed.next, last);
        let stretch = Stretch {
            left: passed.left,
            right: part.all - passed.left,
            first: i,
            last: end,
        };
        found = crossing::nearest(found, stretch, c, part.keys);
        if end == last {
            return found.keys;
        }
        passed = passing::pass_one(marks, passed);
        i = end + 1;
    }
}

// How many keys of a part the left half takes. `half` segments a half.
pub fn split(marks: &[Mark], part: Part, half: usize, low: usize, high: usize) -> usize
    requires by_index { (ws : List ℕ) × PartOf ws (places_of marks.now) (weights_of marks.now) part }
    requires splits { Splits half low high part.keys }
    ensures range { (result ≤ part.keys) × (half * low ≤ result) × (result ≤ half * high) × (half * low + result ≤ part.keys) × (part.keys ≤ half * high + result) }
    ensures share { (S : Shares) (l : ℕ) (ws : List ℕ) → half ≡ 2 ^ l → low ≡ S.low (suc l) → high ≡ S.high (suc l) → PartOf ws (places_of marks.now) (weights_of marks.now) part → result ≡ left_share S l part.front (weights_in ws part) }
{
    let m = part.keys;
    if part.all == 0 {
        return (m + 1) / 2;
    }
    let least = half * low;
    let most = half * high;
    let first = least.max(m.saturating_sub(most));
    let last = most.min(m - least);
    scan(marks, part, 64 * half, first, last)
}

// How many of a part's keys each segment of its window, which is of this level, gets: into `counts`.
pub fn plan_window(
    marks: &[Mark],
    part: Part,
    lows: &[u8],
    highs: &[u8],
    level: usize,
    counts: &mut [usize],
)
    requires by_index { (ws : List ℕ) × PartOf ws (places_of marks.now) (weights_of marks.now) part }
    requires rows { (S : Shares) × Rows S lows.now highs.now × Planned S level (length counts.old) part.keys }
    ensures range { length counts.new ≡ length counts.old }
    ensures counts { (S : Shares) (ws : List ℕ) → level ≤ S.height → Rows S lows.now highs.now → PartOf ws (places_of marks.now) (weights_of marks.now) part → counts.new ≡ plan S level part.front (weights_in ws part) }
{
    if level == 0 {
        counts[0] = part.keys;
        return;
    }
    let half = counts.len() / 2;
    let low = usize::from(lows[level]);
    let high = usize::from(highs[level]);
    let i = split(marks, part, half, low, high);
    // Two segments get their keys without further calls.
    if level == 1 {
        counts[0] = i;
        counts[1] = part.keys - i;
        return;
    }
    let p = passing::pass(marks, part, i);
    let (left, right) = counts.split_at_mut(half);
    plan_window(
        marks,
        parting::left_of(part, i, p),
        lows,
        highs,
        level - 1,
        left,
    );
    plan_window(
        marks,
        parting::right_of(part, i, p),
        lows,
        highs,
        level - 1,
        right,
    );
}
