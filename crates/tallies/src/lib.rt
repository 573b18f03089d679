// The records of a run, one by one: whether what each comes to stops the run, and what is counted of it.
#![tactic(auto)]

ghost use Rattle.std.specs.Prelude.{◌≡◌, false, ◌+◌, ◌≤◌, ◌<◌, ◌^◌, IfOk};
ghost use Rattle.rules.specs.Runs.{nothing};
ghost use Rattle.tallies.specs.Counted.{is_stop, comes_to, moves_of, next_of, keys_of};

use aims::Aim;
use rules::{Refusal, Tally, Verdict};

// What stops a run: a bad record, or moves over the allowance.
fn stops(verdict: Verdict) -> bool
    ensures { result ≡ is_stop verdict }
{
    matches!(verdict, Err(Refusal::BadRecord | Refusal::AllowancePassed))
}

// Whether a request stops the run where only so many moves are left.
pub fn halts(aimed: Result<Aim, Refusal>, left: u64) -> bool
    ensures { result ≡ is_stop (comes_to left aimed) }
{
    stops(within(aimed, left))
}

// What it comes to there: with more moves than are left it is refused for that.
pub fn within(aimed: Result<Aim, Refusal>, left: u64) -> Verdict
    ensures { result ≡ comes_to left aimed }
{
    let aim = aimed?;
    if left < aim.moves as u64 {
        return Err(Refusal::AllowancePassed);
    }
    Ok(())
}

// Nothing counted yet.
pub fn none() -> Tally
    ensures { result ≡ nothing }
{
    Tally {
        worked: 0,
        refused: 0,
        moves: 0,
        sweeps: 0,
        place: 0,
    }
}

// The counts after one more record, of `size` bytes, which was done or refused. (Refused, it moves nothing and sweeps nothing.)
pub fn next(t: Tally, aimed: Result<Aim, Refusal>, size: usize) -> Tally
    requires { (t.worked + 1 < 2 ^ 64) × (t.refused + 1 < 2 ^ 64) × (t.sweeps + 1 < 2 ^ 64) × (t.place + size < 2 ^ 64) × (t.moves + moves_of aimed < 2 ^ 64) }
    ensures { result ≡ next_of t aimed size }
{
    let mut n = t;
    n.worked += 1;
    n.place += size;
    match aimed {
        Ok(aim) => {
            n.moves += aim.moves as u64;
            if aim.level != 0 {
                n.sweeps += 1;
            }
        }
        Err(_) => n.refused += 1,
    }
    n
}

// The keys after a request that was done or refused.
pub fn grown(keys: usize, aimed: Result<Aim, Refusal>) -> usize
    requires { (keys ≤ 4096) × IfOk aimed (λ aim. aim.grows ≡ false → 1 ≤ keys) }
    ensures { result ≡ keys_of keys aimed }
{
    match aimed {
        Ok(aim) => if aim.grows { keys + 1 } else { keys - 1 },
        Err(_) => keys,
    }
}
