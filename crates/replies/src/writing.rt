// What a call writes into the words that a C program lends.
ghost use Rattle.std.specs.Prelude.{◌≡◌, [], ◌∷◌, ◌≤◌, length, take};
ghost use Rattle.given.specs.Calls.{over, reply_words};
ghost use Rattle.replies.specs.Back.{works_on, handed_back};

use forecast::Forecast;
use given::Told;
use rules::Tally;

// The first `N` values of what is told, as the words of a reply; gives the number.
pub fn tell<const N: usize>(told: Told, reply: &mut [u64]) -> u64
    requires few { N ≤ 3 }
    requires room { N ≤ length reply.old }
    ensures number { result ≡ told.number }
    ensures words { reply.new ≡ over (take N (told.first ∷ told.second ∷ told.third ∷ [])) reply.old }
{
    let words = [told.first, told.second, told.third];
    reply[..N].copy_from_slice(&words[..N]);
    told.number
}

// A run's: records worked, records refused, moves, and the byte place.
pub fn tell_tally(tally: Tally, reply: &mut [u64])
    requires { 4 ≤ length reply.old }
    ensures { reply.new ≡ over (reply_words tally) reply.old }
{
    let words = [
        tally.worked as u64,
        tally.refused as u64,
        tally.moves,
        tally.place as u64,
    ];
    reply[..4].copy_from_slice(&words);
}

// Whether a call with this number has worked on what it was lent: done, or stopped after earlier work. By the number itself, since no
// verdict is at hand here.
fn works_on(number: u64) -> bool
    ensures { result ≡ works_on number }
{
    matches!(number, 0 | 9 | 10)
}

// The forecast's words, where the call has worked on it; where it was refused they stay as they were lent.
#[tactic(auto, unfolding(crate::specs::Back::handed_back))]
pub fn hand_back(number: u64, forecast: Forecast, words: &mut [u64])
    requires { length words.old ≡ 37 }
    ensures { words.new ≡ handed_back number forecast words.old }
{
    if works_on(number) {
        words::write_forecast(forecast, words);
    }
}
