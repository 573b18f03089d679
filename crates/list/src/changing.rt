// The public calls that change a list: insert and delete. They ask nothing of what they are lent.
// Two and not one: a delete has no card, and tells one value more.
ghost use Rattle.rules.specs.Lent.{lend};
ghost use Rattle.answers.specs.Admits.{InsertAdmits, DeleteAdmits};

use answers::{DeleteReply, Deleted, InsertReply, Reply};
use forecast::Forecast;

// Puts a new key in, with its card.
pub fn insert(
    profile: u64,
    list: &mut [u64],
    cards: &mut [u32],
    table: &mut [usize],
    forecast: Forecast,
    key: u64,
    card: u32,
) -> InsertReply
    ensures { InsertAdmits profile (lend list.old cards.old table.old) forecast key card result (lend list.new cards.new table.new) }
{
    let reply = asking::ask(profile, list, cards, table, forecast, true, key, card);
    Reply {
        forecast: reply.forecast,
        answer: reply.verdict.and(Ok(reply.moves)),
    }
}

// Takes a live key out.
pub fn delete(
    profile: u64,
    list: &mut [u64],
    cards: &mut [u32],
    table: &mut [usize],
    forecast: Forecast,
    key: u64,
) -> DeleteReply
    ensures { DeleteAdmits profile (lend list.old cards.old table.old) forecast key result (lend list.new cards.new table.new) }
{
    let reply = asking::ask(profile, list, cards, table, forecast, false, key, 0);
    Reply {
        forecast: reply.forecast,
        answer: reply.verdict.and(Ok(Deleted {
            moves: reply.moves,
            sparse: reply.sparse,
        })),
    }
}
