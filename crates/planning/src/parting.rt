// The parts of a packed window: all of it, and the two halves of a part.
ghost use Rattle.std.specs.Prelude.{◌≡◌, ◌+◌, ◌≤◌, length};
ghost use Rattle.lists.specs.Lists.{All};
ghost use Rattle.stretches.specs.Marks.{weights_of};
ghost use Rattle.planning.specs.Parts.{whole_of, left_of, right_of};

use stretches::{Mark, Part, Passed};

// All `m` keys of a window, with all its marks.
pub fn whole(marks: &[Mark], m: usize, front: usize) -> Part
    requires { (length marks.now ≤ 12) × All (λ w. w ≤ 12) (weights_of marks.now) × (front ≤ 12) }
    ensures { result ≡ whole_of (weights_of marks.now) m front }
{
    Part {
        place: 0,
        keys: m,
        from: 0,
        to: marks.len(),
        front,
        all: front + marks.iter().map(|m| m.weight).sum::<usize>(),
    }
}

// The first `i` keys of a part, up to which the marks are passed, and the others.
pub fn left_of(part: Part, i: usize, p: Passed) -> Part
    ensures { result ≡ left_of part i p }
{
    Part {
        place: part.place,
        keys: i,
        from: part.from,
        to: p.next,
        front: part.front,
        all: p.left,
    }
}

pub fn right_of(part: Part, i: usize, p: Passed) -> Part
    requires { (part.place + part.keys ≤ 4096) × (i ≤ part.keys) × (p.left ≤ part.all) }
    ensures { result ≡ right_of part i p }
{
    Part {
        place: part.place + i,
        keys: part.keys - i,
        from: p.next,
        to: part.to,
        front: 0,
        all: part.all - p.left,
    }
}
