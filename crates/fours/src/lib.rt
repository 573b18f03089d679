// Four elements of a slice at a time: all four are read before any is written.
#![tactic(auto)]

ghost use Rattle.std.specs.Prelude.{◌≡◌, ◌+◌, ◌≤◌, length, take, drop};
ghost use Rattle.std.proofs.Math.Seq.{paste};
ghost use Rattle.fours.specs.Fours.{four_of};

// Four elements, as they are read before any is written.
#[derive(Clone, Copy)]
pub struct Four<T> {
    pub w: T,
    pub x: T,
    pub y: T,
    pub z: T,
}

// The four elements from index `from` on.
pub fn read_four<T: Copy>(part: &[T], from: usize) -> Four<T>
    requires { from + 4 ≤ length part.now }
    ensures { take 4 (drop from part.now) ≡ four_of result }
{
    Four {
        w: part[from],
        x: part[from + 1],
        y: part[from + 2],
        z: part[from + 3],
    }
}

// Four elements written from index `to` on.
pub fn put_four<T: Copy>(part: &mut [T], to: usize, four: Four<T>)
    requires { to + 4 ≤ length part.old }
    ensures { part.new ≡ paste part.old to (four_of four) 4 }
{
    part[to] = four.w;
    part[to + 1] = four.x;
    part[to + 2] = four.y;
    part[to + 3] = four.z;
}

// Copies four elements.
pub fn move_four<T: Copy>(part: &mut [T], from: usize, to: usize)
    requires { (from + 4 ≤ length part.old) × (to + 4 ≤ length part.old) }
    ensures { part.new ≡ paste part.old to (drop from part.old) 4 }
{
    let four = read_four(part, from);
    put_four(part, to, four);
}
