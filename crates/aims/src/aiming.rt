// What an insert and a delete come to on a list that has been checked, by the bounds of its segments and its table.
ghost use Rattle.std.specs.Prelude.{◌≡◌};
ghost use Rattle.forecast.specs.declared.Forecast.{Forecast};
ghost use Rattle.rules.specs.declared.Request.{Request};
ghost use Rattle.shares.specs.Rows.{shares_at};
ghost use Rattle.rules.specs.Calls.{room_of};
ghost use Rattle.aims.specs.Aims.{Known, Stands, Aimed};

use crate::Aim;
use rules::{Refusal, Request};
use shares::Shape;

// An insert: of the room before it, refusals 5, 6 and 8, or the key's place, and the window to sweep where its segment has no room.
fn aim_in(
    list: &[u64],
    table: &[usize],
    bounds: &[u64],
    shape: Shape,
    key: u64,
    keys: usize,
) -> Result<Aim, Refusal>
    requires { Known list.now bounds.now table.now shape keys }
    ensures { (F : Forecast) → Stands list.now F shape keys → Aimed (shares_at shape) (Request.Insert key) (room_of list.now F) result }
{
    if key == 0 {
        return Err(Refusal::KeyZero);
    }
    let spot = seeking::finding::spot(list, table, bounds, key);
    let place = spot.place;
    if place.present {
        return Err(Refusal::KeyPresent);
    }
    if shape.capacity <= keys {
        return Err(Refusal::Full);
    }
    let held = place.held;
    let at = place.at;
    let segment = place.segment;
    if held < shape.high {
        return Ok(Aim {
            grows: true,
            key,
            before: spot.before,
            segment,
            at,
            held,
            level: 0,
            moves: held - at + 1,
        });
    }
    // There is a window, since the list is not full.
    let Some(found) = climbs::climbing::climb(table, shape, segment, 1, 0) else {
        unreachable!()
    };
    Ok(Aim {
        grows: true,
        key,
        before: spot.before,
        segment,
        at,
        held,
        level: found.level,
        moves: found.keys,
    })
}

// A delete: refusals 5 and 7, or the key's place, and the window to sweep where its segment falls under its low share, if there is one.
fn aim_out(
    list: &[u64],
    table: &[usize],
    bounds: &[u64],
    shape: Shape,
    key: u64,
    keys: usize,
) -> Result<Aim, Refusal>
    requires { Known list.now bounds.now table.now shape keys }
    ensures { (F : Forecast) → Stands list.now F shape keys → Aimed (shares_at shape) (Request.Delete key) (room_of list.now F) result }
{
    if key == 0 {
        return Err(Refusal::KeyZero);
    }
    let spot = seeking::finding::spot(list, table, bounds, key);
    let place = spot.place;
    if !place.present {
        return Err(Refusal::KeyAbsent);
    }
    let held = place.held;
    let at = place.at;
    let segment = place.segment;
    if held <= shape.low {
        if let Some(found) = climbs::climbing::climb(table, shape, segment, 0, 1) {
            return Ok(Aim {
                grows: false,
                key,
                before: 0,
                segment,
                at,
                held,
                level: found.level,
                moves: found.keys,
            });
        }
    }
    Ok(Aim {
        grows: false,
        key,
        before: 0,
        segment,
        at,
        held,
        level: 0,
        moves: held - at - 1,
    })
}

// What a request comes to. A bad record is refused.
pub fn aim(
    list: &[u64],
    table: &[usize],
    bounds: &[u64],
    shape: Shape,
    request: Request,
    keys: usize,
) -> Result<Aim, Refusal>
    requires { Known list.now bounds.now table.now shape keys }
    ensures { (F : Forecast) → Stands list.now F shape keys → Aimed (shares_at shape) request (room_of list.now F) result }
{
    match request {
        Request::Insert(key) => aim_in(list, table, bounds, shape, key, keys),
        Request::Delete(key) => aim_out(list, table, bounds, shape, key, keys),
        Request::Bad => Err(Refusal::BadRecord),
    }
}
