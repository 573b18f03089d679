// What travels as numbers and words: refusals, a forecast, totals.
#![tactic(auto)]

ghost use Rattle.std.specs.Prelude.{◌≡◌, length};
ghost use Rattle.words.specs.Words.{capped, forecast_in, forecast_words, saturated};

pub mod numbers;
pub mod totals;

use forecast::Forecast;

// A word as a byte: 255 for all that is over it.
fn narrow(x: u64) -> u8
    ensures { result ≡ capped x }
{
    u8::try_from(x).unwrap_or(255)
}

// The forecast that the words show, as far as bytes hold it.
pub fn read_forecast(words: &[u64]) -> Forecast
    requires { length words.now ≡ 37 }
    ensures { result ≡ saturated (forecast_in words.now) }
{
    let mut forecast = Forecast::empty();
    forecast.used = usize::from(narrow(words[0]));
    // By index: three rows at i stand beside three words at 3 * i + 1.
    for i in 0..12 {
        let at = 3 * i + 1;
        forecast.markers[i] = words[at];
        forecast.segments[i] = narrow(words[at + 1]);
        forecast.counts[i] = narrow(words[at + 2]);
    }
    forecast
}

// The words that show a forecast.
pub fn write_forecast(forecast: Forecast, words: &mut [u64])
    requires { length words.old ≡ 37 }
    ensures { words.new ≡ forecast_words forecast }
{
    words[0] = forecast.used as u64;
    // By index: three rows at i stand beside three words at 3 * i + 1.
    for i in 0..12 {
        let at = 3 * i + 1;
        words[at] = forecast.markers[i];
        words[at + 1] = u64::from(forecast.segments[i]);
        words[at + 2] = u64::from(forecast.counts[i]);
    }
}
