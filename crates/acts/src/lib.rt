// What a request comes to, acted on, for both kinds: noted in the forecast, and the key shifted in or out, or its window swept.
#![tactic(auto)]

ghost use Rattle.std.specs.Prelude.{◌≡◌, true, List, map, ℕ, ◌≤◌, length};
ghost use Rattle.forecast.specs.Cells.{forecast_of};
ghost use Rattle.sweeps.specs.Acts.{outcome_of, Acting, Noted, Left};

use aims::Aim;
use forecast::Forecast;
use shares::Shape;
use slots::Place;

// The forecast with the request noted.
pub fn note(forecast: Forecast, shape: Shape, aim: Aim) -> Forecast
    requires { (slots : List ℕ) × (bounds : List ℕ) × (table : List ℕ) × Acting slots forecast bounds table shape aim }
    ensures { (slots bounds table : List ℕ) → Acting slots forecast bounds table shape aim → Noted slots forecast shape aim result }
{
    if aim.grows {
        return forecast.note_insert(shape.cells, aim.before, aim.segment);
    }
    forecast.drop_marker(aim.key)
}

// A key put in, with its card, or taken out within its segment.
pub fn shift(
    list: &mut [u64],
    cards: &mut [u32],
    table: &mut [usize],
    bounds: &mut [u64],
    aim: Aim,
    card: u32,
)
    requires acting { (F : Forecast) × (shape : Shape) × Acting list.old F bounds.old table.old shape aim }
    requires level_value { aim.level ≡ 0 }
    requires cards_len { length cards.old ≡ length list.old }
    ensures left { (F : Forecast) (shape : Shape) → Acting list.old F bounds.old table.old shape aim → Left (outcome_of list.old F shape aim) list.new bounds.new table.new }
    ensures cards { (f : ℕ → ℕ) → f 0 ≡ 0 → (aim.grows ≡ true → f aim.key ≡ card) → cards.old ≡ map f list.old → cards.new ≡ map f list.new }
{
    let place = Place {
        segment: aim.segment,
        held: aim.held,
        at: aim.at,
        present: !aim.grows,
    };
    if aim.grows {
        shifts::put_in(list, cards, table, place, aim.key, card);
        return;
    }
    shifts::cut_out(list, cards, table, bounds, place, aim.key);
}

// The window planned and then swept; each key keeps its card, and `card` is that of a key put in. `noted` is the forecast with the request
// noted.
pub fn sweep(
    list: &mut [u64],
    cards: &mut [u32],
    table: &mut [usize],
    bounds: &mut [u64],
    plan: &mut [usize],
    noted: Forecast,
    shape: Shape,
    aim: Aim,
    card: u32,
)
    requires plan_len { ((F : Forecast) × Acting list.old F bounds.old table.old shape aim × Noted list.old F shape aim noted) × (length plan.old ≡ 64) }
    requires le_level { (1 ≤ aim.level) × (length cards.old ≡ length list.old) }
    ensures range { length plan.new ≡ length plan.old }
    ensures left { (F : Forecast) → Acting list.old F bounds.old table.old shape aim → Noted list.old F shape aim noted → Left (outcome_of list.old F shape aim) list.new bounds.new table.new }
    ensures cards { (f : ℕ → ℕ) → f 0 ≡ 0 → (aim.grows ≡ true → f aim.key ≡ card) → cards.old ≡ map f list.old → cards.new ≡ map f list.new }
{
    sweeps::plan_sweep(list, table, plan, noted, shape, aim);
    sweeps::sweep(list, cards, table, bounds, plan, aim, card);
}

// After a sweep, each cell of the swept window names its marker's segment.
pub fn retarget(noted: Forecast, bounds: &[u64], aim: Aim) -> Forecast
    requires { ((slots : List ℕ) × (F : Forecast) × (was : List ℕ) × (table : List ℕ) × (shape : Shape) × Acting slots F was table shape aim × Noted slots F shape aim noted) × (length bounds.now ≡ 64) }
    ensures { (slots : List ℕ) (F : Forecast) (was table : List ℕ) (shape : Shape) → Acting slots F was table shape aim → Noted slots F shape aim noted → 1 ≤ aim.level → (left full : List ℕ) → Left (outcome_of slots F shape aim) left bounds.now full → result ≡ forecast_of (outcome_of slots F shape aim).room.cells }
{
    let n = shares::power(aim.level);
    let segment = aim.segment;
    noted.retarget(bounds, segment / n * n, n)
}
