// The marks passed one after the other, and how far a stretch without a mark reaches.
ghost use Rattle.std.specs.Prelude.{◌≡◌, ℕ, ◌+◌, ◌≤◌, ◌<◌, List, leb, length, get_or};
ghost use Rattle.lists.specs.Search.{place_by};
ghost use Rattle.stretches.specs.Marks.{places_of, weights_of};
ghost use Rattle.stretches.specs.Parts.{PartOf, PassedTo, reach_of};

use crate::{Mark, Part, Passed};

// The first mark that stands at a place or past it; how many there are, where none does.
pub fn mark_from(marks: &[Mark], place: usize) -> usize
    ensures range { result ≤ length marks.now }
    ensures place { result ≡ place_by (leb place) (places_of marks.now) }
{
    marks
        .iter()
        .position(|m| place <= m.place)
        .unwrap_or(marks.len())
}

// The next mark passed: its weight goes left.
pub fn pass_one(marks: &[Mark], p: Passed) -> Passed
    requires { (p.next < length marks.now) × (p.left ≤ 300) × (get_or (weights_of marks.now) p.next 0 ≤ 12) × (p.next ≤ 12) }
    ensures { (result.next ≡ p.next + 1) × (result.left ≡ p.left + get_or (weights_of marks.now) p.next 0) }
{
    let k = p.next;
    Passed {
        next: k + 1,
        left: p.left + marks[k].weight,
    }
}

// The marks on the first `i` keys of a part passed.
pub fn pass(marks: &[Mark], part: Part, i: usize) -> Passed
    requires by_index { (ws : List ℕ) × PartOf ws (places_of marks.now) (weights_of marks.now) part }
    requires i_le_keys { i ≤ part.keys }
    ensures { (ws : List ℕ) → PartOf ws (places_of marks.now) (weights_of marks.now) part → PassedTo ws (places_of marks.now) part i result }
{
    let place = part.place + i;
    let mut left = part.front;
    // By index: the number of the next mark is what is told.
    for next in part.from..part.to {
        let mark = marks[next];
        if place <= mark.place {
            return Passed { next, left };
        }
        left += mark.weight;
    }
    Passed {
        next: part.to,
        left,
    }
}

// How far the numbers of keys go on before the next mark, at most to `last`: a mark weighs on the left once its key is taken.
pub fn reach(marks: &[Mark], part: Part, next: usize, last: usize) -> usize
    requires { next < part.to → (next < length marks.now) × (part.place ≤ get_or (places_of marks.now) next 0) }
    ensures { result ≡ reach_of (places_of marks.now) part next last }
{
    if next < part.to {
        last.min(marks[next].place - part.place)
    } else {
        last
    }
}
