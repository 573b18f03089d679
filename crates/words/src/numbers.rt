// The numbers of verdicts.
ghost use Rattle.std.specs.Prelude.{◌≡◌};
ghost use Rattle.rules.specs.Refusals.{verdict_number};

use rules::Verdict;

// The stop number of a run.
pub fn verdict_number(verdict: Verdict) -> u64
    ensures { result ≡ verdict_number verdict }
{
    match verdict {
        Err(refusal) => u64::from(refusal),
        Ok(()) => 0,
    }
}
