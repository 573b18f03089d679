// Reading any slots: the first slot that breaks the order, and the number of keys.
#![tactic(auto)]

ghost use Rattle.std.specs.Prelude.{◌≡◌, ◌+◌, ◌*◌, ◌/◌, ◌≤◌, ◌<◌, length};
ghost use Rattle.slots.specs.Shown.{Reads, Tallied};
ghost use Rattle.reading.specs.Stretches.{Sound, before, break_of};

use slots::Disorder;

pub mod gaps;
pub mod rising;

// The slot before slot `i`, or `last` at `a`.
fn slot_before(list: &[u64], a: usize, i: usize, last: u64) -> u64
    requires { (a ≤ i) × (i ≤ length list.now) }
    ensures { result ≡ before list.now a last i }
{
    if i == a {
        return last;
    }
    list[i - 1]
}

// How `key` breaks the order at slot `at`, where `top` is the largest key before it.
fn fault_of(key: u64, top: u64, at: usize) -> Disorder
    ensures { result ≡ break_of key top at }
{
    if key <= top {
        return Disorder::NotRising(at);
    }
    Disorder::AfterGap(at)
}

// What is left of a reading, from slot `a` on, where a segment begins that is not whole: `keys` keys before it, the largest `last`.
fn read_short(list: &[u64], a: usize, last: u64, keys: usize) -> Result<usize, Disorder>
    requires { (a ≤ length list.now) × (length list.now < a + 64) × (a / 64 * 64 ≡ a) × Sound list.now a last keys }
    ensures { Reads list.now result }
{
    let n = list.len();
    let i = a + rising::rising(&list[a..], last);
    let j = gaps::gaps_rest(list, i, n);
    if j < n {
        let key = list[j];
        let top = slot_before(list, a, i, last);
        return Err(fault_of(key, top, j));
    }
    Ok(keys + (i - a))
}

// The number of keys, or the first slot that breaks the order; where none does, the number of keys of each segment is in its place
// of `counts`. Of any slots.
pub fn read_slots(list: &[u64], counts: &mut [usize]) -> Result<usize, Disorder>
    requires { length list.now / 64 ≤ length counts.old }
    ensures order { Reads list.now result }
    ensures counts { Tallied list.now counts.old counts.new }
{
    let n = list.len() / 64;
    let mut keys = 0;
    let mut last = 0;
    for s in 0..n {
        let a = 64 * s;
        let e = a + 64;
        let i = rising::rising_whole(list, a, last);
        let j = gaps::gaps_end(list, i, e);
        let top = slot_before(list, a, i, last);
        if j < e {
            return Err(fault_of(list[j], top, j));
        }
        counts[s] = i - a;
        keys += i - a;
        last = top;
    }
    read_short(list, 64 * n, last, keys)
}
