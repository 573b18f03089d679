// A single request on anything that is lent: a run of its one record.
#![tactic(auto)]

ghost use Rattle.rules.specs.Lent.{lend};
ghost use Rattle.records.specs.Asked.{asked};
ghost use Rattle.asking.specs.Requested.{TellsSparse, Requested};

use forecast::Forecast;
use rules::Verdict;

// What a request comes to, before it is told as an insert's or a delete's answer.
#[derive(Clone, Copy)]
pub struct Reply {
    pub forecast: Forecast,
    pub verdict: Verdict,
    pub moves: u64,
    // A flag beside the moves: they count whether or not the list is sparse.
    pub sparse: bool,
}

// Told of an accepted delete: of a list of `long` slots in a profile, fewer keys are left than its shape's floor.
fn is_sparse(profile: u64, grows: bool, verdict: Verdict, keys: usize, long: usize) -> bool
    ensures { TellsSparse profile grows verdict keys long result }
{
    if grows {
        return false;
    }
    if let Err(_) = verdict {
        return false;
    }
    let Some(height) = places::heights::height_of(long) else {
        return false;
    };
    keys < shares::shape_of(shares::profile_of(profile), height).floor
}

// The request's record is worked with an allowance that it cannot pass. `card` is that of a key put in.
pub fn ask(
    profile: u64,
    list: &mut [u64],
    cards: &mut [u32],
    table: &mut [usize],
    forecast: Forecast,
    grows: bool,
    key: u64,
    card: u32,
) -> Reply
    ensures { Requested profile (asked grows key) card (lend list.old cards.old table.old) forecast result (lend list.new cards.new table.new) }
{
    let bytes = records::bytes_of(grows, key, card);
    let n = records::size_of(grows);
    let worked = opening::work_lent(profile, list, cards, table, forecast, &bytes[..n], u64::MAX);
    let after = worked.forecast;
    let tally = worked.tally;
    let last = worked.last;
    let sparse = is_sparse(profile, grows, last, worked.keys, list.len());
    Reply {
        forecast: after,
        verdict: last,
        moves: tally.moves,
        sparse,
    }
}
