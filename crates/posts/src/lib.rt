// What insert, delete and a run have come to, written into the words that a C program lends.
// Insert and delete apart: a delete tells one word more, and their answers are of two types.
#![tactic(auto)]

ghost use Rattle.std.specs.Prelude.{◌≡◌, ◌≤◌, length};
ghost use Rattle.answers.specs.Answers.{insert_paper, delete_paper};
ghost use Rattle.telling.specs.Told.{answer_words};
ghost use Rattle.posts.specs.Posts.{one_word, two_words, Posted, RunPosted};

use answers::{DeleteReply, InsertReply};
use replies::writing::{hand_back, tell, tell_tally};
use told::ToldRun;

// An insert: its word of the reply, and the forecast's words; gives its number.
pub fn post_insert(done: InsertReply, forecast: &mut [u64], reply: &mut [u64]) -> u64
    requires { (length forecast.old ≡ 37) × (1 ≤ length reply.old) }
    ensures { Posted one_word (answer_words (insert_paper done.answer)) done.forecast forecast.old reply.old result forecast.new reply.new }
{
    let number = tell::<1>(telling::insert_told(done.answer), reply);
    hand_back(number, done.forecast, forecast);
    number
}

// A delete: its two words of the reply, and the forecast's words; gives its number.
pub fn post_delete(done: DeleteReply, forecast: &mut [u64], reply: &mut [u64]) -> u64
    requires { (length forecast.old ≡ 37) × (2 ≤ length reply.old) }
    ensures { Posted two_words (answer_words (delete_paper done.answer)) done.forecast forecast.old reply.old result forecast.new reply.new }
{
    let number = tell::<2>(telling::delete_told(done.answer), reply);
    hand_back(number, done.forecast, forecast);
    number
}

// A run: its four words of the reply, and the words of forecast and totals; gives the number of what stopped it.
pub fn post_run(ran: ToldRun, forecast: &mut [u64], totals: &mut [u32], reply: &mut [u64]) -> u64
    requires { (length forecast.old ≡ 37) × (length totals.old ≡ 4) × (4 ≤ length reply.old) }
    ensures number { result ≡ ran.told.stop }
    ensures left { RunPosted ran.told.stop ran.told.forecast ran.told.tally ran.totals forecast.old reply.old forecast.new totals.new reply.new }
{
    let done = ran.told;
    words::totals::write_totals(ran.totals, totals);
    tell_tally(done.tally, reply);
    hand_back(done.stop, done.forecast, forecast);
    done.stop
}
