// The four totals of runs, each modulo 2^32. Two functions: one adds a tally, cut to 32 bits, the other subtracts totals.
ghost use Rattle.std.specs.Prelude.{◌≡◌};
ghost use Rattle.rules.specs.Runs.{added};
ghost use Rattle.run.specs.Sums.{since};

use rules::{Tally, Totals};

// The totals with what a run has counted added.
pub fn add_tally(t: Totals, tally: Tally) -> Totals
    ensures { result ≡ added t tally }
{
    Totals {
        worked: t.worked.wrapping_add((tally.worked % 4294967296) as u32),
        refused: t.refused.wrapping_add((tally.refused % 4294967296) as u32),
        moved: t.moved.wrapping_add((tally.moves % 4294967296) as u32),
        sweeps: t.sweeps.wrapping_add((tally.sweeps % 4294967296) as u32),
    }
}

// The difference of two readings: what was added to `earlier` to give `later`.
pub fn difference(later: Totals, earlier: Totals) -> Totals
    ensures { result ≡ since later earlier }
{
    Totals {
        worked: later.worked.wrapping_sub(earlier.worked),
        refused: later.refused.wrapping_sub(earlier.refused),
        moved: later.moved.wrapping_sub(earlier.moved),
        sweeps: later.sweeps.wrapping_sub(earlier.sweeps),
    }
}
