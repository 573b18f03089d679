// Whether what a C program lends has the sizes that a call lists, and the number given where it has not. Sizes are numbers of words.
// Each test tells a bool, since each call for C gives the number at once: an error would be made and told in one line.
ghost use Rattle.std.specs.Prelude.{ℕ, ◌≡◌, true, not, ◌||◌, List, eqb, ltb};
ghost use Rattle.given.specs.Calls.{Given, sized};

// The words of a forecast, and of the totals.
const FORECAST: usize = 37;

const TOTALS: usize = 4;

// A forecast of any other size than its own.
pub fn no_forecast(forecast: usize) -> bool
    ensures { result ≡ not (eqb forecast 37) }
{
    forecast != FORECAST
}

// That, or a reply of under `n` words.
pub fn misfits(forecast: usize, reply: usize, n: usize) -> bool
    ensures { result ≡ (not (eqb forecast 37) || ltb reply n) }
{
    forecast != FORECAST || reply < n
}

// That, or totals of any other size than theirs.
pub fn run_misfits(forecast: usize, totals: usize, reply: usize) -> bool
    ensures { result ≡ (not (eqb forecast 37) || (not (eqb totals 4) || ltb reply 4)) }
{
    forecast != FORECAST || totals != TOTALS || reply < 4
}

// What a call answers where the forecast, the totals or the reply has the wrong size.
const MISFIT: u64 = 100;

pub fn misfit() -> u64
    ensures { (lent : List (List ℕ)) (o : Given) → result ≡ (sized true lent o).number }
{
    MISFIT
}
