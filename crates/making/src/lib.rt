// Making a list empty.
#![tactic(auto)]

ghost use Rattle.std.specs.Prelude.{[]};
ghost use Rattle.forecast.specs.Cells.{forecast_of};
ghost use Rattle.rules.specs.Lent.{lend};
ghost use Rattle.answers.specs.Admits.{MakeAdmits};

use answers::{MakeAnswer, MakeReply};
use forecast::Forecast;
use rules::{Profile, Refusal};

// Writes 0 in every slot, every card and every entry of the table.
fn clear(profile: u64, list: &mut [u64], cards: &mut [u32], table: &mut [usize]) -> MakeAnswer
    ensures { MakeAdmits profile (lend list.old cards.old table.old) (record { forecast = forecast_of []; answer = result }) (lend list.new cards.new table.new) }
{
    Profile::try_from(profile)?;
    let n = list.len();
    let Some(_) = places::heights::height_of(n) else {
        return Err(Refusal::WrongLength);
    };
    if cards.len() != n {
        return Err(Refusal::WrongCards);
    }
    let entries = table.len();
    if entries != n / 32 - 1 {
        return Err(Refusal::WrongTable);
    }
    gaps::clear(list, cards, 0, n);
    tables::keeping::clear(table);
    Ok(())
}

// The same, and gives an empty forecast.
pub fn make(profile: u64, list: &mut [u64], cards: &mut [u32], table: &mut [usize]) -> MakeReply
    ensures { MakeAdmits profile (lend list.old cards.old table.old) result (lend list.new cards.new table.new) }
{
    let answer = clear(profile, list, cards, table);
    MakeReply {
        forecast: Forecast::empty(),
        answer,
    }
}
