// Records worked in order within an allowance of moves, on a list that has been checked.
ghost use Rattle.std.specs.Prelude.{◌≡◌, length};
ghost use Rattle.slots.specs.Segments.{segments_of};
ghost use Rattle.rules.specs.Profiles.{number_of};
ghost use Rattle.rules.specs.Cards.{card_at, cards_beside};
ghost use Rattle.rules.specs.Lent.{lend};
ghost use Rattle.seats.specs.Bounds.{Indexed};
ghost use Rattle.aims.specs.Aims.{Stands};
ghost use Rattle.steps.specs.Works.{Ends};

use crate::Worked;
use forecast::Forecast;
use shares::Shape;

// The records in order: each is decided, then acted on. `plan` is a buffer for the plans of sweeps.
pub fn work(
    list: &mut [u64],
    cards: &mut [u32],
    table: &mut [usize],
    bounds: &mut [u64],
    plan: &mut [usize],
    mut forecast: Forecast,
    shape: Shape,
    mut keys: usize,
    requests: &[u8],
    allowance: u64,
) -> Worked
    requires stands { Stands list.old forecast shape keys × Indexed (segments_of list.old) list.old bounds.old table.old × (length plan.old ≡ 64) }
    requires cards_value { cards.old ≡ cards_beside (card_at list.old cards.old) list.old }
    ensures { Ends (number_of shape.profile) list.old (card_at list.old cards.old) forecast requests.now allowance result (lend list.new cards.new table.new) }
{
    let mut last = Ok(());
    let mut tally = tallies::none();
    // By place: a record has 11 bytes or 15, so that no chunks of one size fit.
    while tally.place < requests.len() {
        let record = records::record_at(requests, tally.place);
        let request = record.request;
        let card = record.card;
        let aimed = aims::aiming::aim(list, table, bounds, shape, request, keys);
        let left = allowance - tally.moves;
        if tallies::halts(aimed, left) {
            return Worked {
                forecast,
                tally,
                stop: tallies::within(aimed, left),
                last,
                keys,
            };
        }
        last = aimed.and(Ok(()));
        keys = tallies::grown(keys, aimed);
        tally = tallies::next(tally, aimed, record.size);
        if let Ok(aim) = aimed {
            forecast = acts::note(forecast, shape, aim);
            if aim.level == 0 {
                acts::shift(list, cards, table, bounds, aim, card);
            } else {
                acts::sweep(list, cards, table, bounds, plan, forecast, shape, aim, card);
                forecast = acts::retarget(forecast, bounds, aim);
            }
        }
    }
    Worked {
        forecast,
        tally,
        stop: Ok(()),
        last,
        keys,
    }
}
