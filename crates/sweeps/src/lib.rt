// A sweep: its plan, made before anything is written, and the sweep by it.
#![tactic(auto)]

ghost use Rattle.std.specs.Prelude.{◌≡◌, true, List, map, ℕ, ◌+◌, ◌^◌, ◌≤◌, eqb, length, get_or, if◌then◌else◌};
ghost use Rattle.lists.specs.Lists.{splice};
ghost use Rattle.slots.specs.Segments.{Segments};
ghost use Rattle.levels.specs.Tables.{table_of};
ghost use Rattle.seats.specs.Bounds.{Indexed};
ghost use Rattle.cells.specs.Cells.{weight};
ghost use Rattle.forecast.specs.Cells.{used_cells};
ghost use Rattle.forecast.specs.Tidy.{Tidy};
ghost use Rattle.sweeps.specs.Acts.{outcome_of, Acting, Noted, Planned, Left};

use aims::Aim;
use forecast::Forecast;
use marks::Window;
use shares::Shape;
use stretches::Mark;

// The front's weight, in a window that begins at segment 0.
fn front_weight(forecast: Forecast, first: usize) -> usize
    requires { Tidy forecast }
    ensures { result ≡ (if eqb first 0 then weight (used_cells forecast) 0 else 0) }
{
    if first == 0 { forecast.weight_of(0) } else { 0 }
}

// How many keys each segment of the window gets that the request sweeps, into `plan`: the keys that weigh are marked where they will stand.
pub fn plan_sweep(
    list: &[u64],
    table: &[usize],
    plan: &mut [usize],
    forecast: Forecast,
    shape: Shape,
    aim: Aim,
)
    requires by_index { (F : Forecast) × (bounds : List ℕ) × Acting list.now F bounds table.now shape aim × Noted list.now F shape aim forecast }
    requires le_level { (1 ≤ aim.level) × (length plan.old ≡ 64) }
    ensures range { length plan.new ≡ length plan.old }
    ensures plan { (F : Forecast) (bounds : List ℕ) → Acting list.now F bounds table.now shape aim → Noted list.now F shape aim forecast → Planned list.now F shape aim plan.new }
{
    let level = aim.level;
    let segment = aim.segment;
    let n = shares::power(level);
    let first = segment / n * n;
    let w = Window {
        first,
        n,
        key: aim.key,
        grows: aim.grows,
    };
    let mut row = [Mark {
        place: 0,
        weight: 0,
    }; 12];
    let r = marks::mark(list, table, forecast, w, &mut row);
    let marks = &row[..r];
    let front = front_weight(forecast, first);
    let part = planning::parting::whole(marks, aim.moves, front);
    let levels = shape.levels;
    planning::splitting::plan_window(
        marks,
        part,
        &levels.lows,
        &levels.highs,
        level,
        &mut plan[..n],
    );
}

// The counts of a plan in the table, and the sums of the windows over them.
fn recount(table: &mut [usize], first: usize, plan: &[usize])
    requires { ((ss : Segments) × (slots : List ℕ) × (bounds : List ℕ) × Indexed ss slots bounds table.old × (first + length plan.now ≤ length ss)) × (1 ≤ length plan.now) × ((k : ℕ) → get_or plan.now k 0 ≤ 64) }
    ensures { (h : ℕ) (ss window : Segments) → length ss ≡ 2 ^ h → table.old ≡ table_of h ss → map length window ≡ plan.now → table.new ≡ table_of h (splice first (length plan.now) window ss) }
{
    let n = table.len() / 2 + 1;
    let end = first + plan.len();
    table[first..end].copy_from_slice(plan);
    tables::summing::sum_over(table, n, first, end - 1);
}

// The window swept by its plan, each key with its card, with the bounds of its segments and the table. `card` is that of a key put in.
pub fn sweep(
    list: &mut [u64],
    cards: &mut [u32],
    table: &mut [usize],
    bounds: &mut [u64],
    plan: &[usize],
    aim: Aim,
    card: u32,
)
    requires acting { (F : Forecast) × (shape : Shape) × Acting list.old F bounds.old table.old shape aim × Planned list.old F shape aim plan.now }
    requires le_level { (1 ≤ aim.level) × (length plan.now ≡ 64) }
    requires cards_len { length cards.old ≡ length list.old }
    ensures left { (F : Forecast) (shape : Shape) → Acting list.old F bounds.old table.old shape aim → Planned list.old F shape aim plan.now → Left (outcome_of list.old F shape aim) list.new bounds.new table.new }
    ensures cards { (f : ℕ → ℕ) → f 0 ≡ 0 → (aim.grows ≡ true → f aim.key ≡ card) → cards.old ≡ map f list.old → cards.new ≡ map f list.new }
{
    let segment = aim.segment;
    let n = shares::power(aim.level);
    let first = segment / n * n;
    let a = 64 * first;
    let e = a + 64 * n;
    let p = places::counting::keys_in(table, first, segment) + aim.at;
    sowing::sow(
        &mut list[a..e],
        &mut cards[a..e],
        &table[first..first + n],
        &plan[..n],
        p,
        aim.key,
        card,
        aim.grows,
    );
    recount(table, first, &plan[..n]);
    bounding::rebound(list, bounds, first, first + n);
}
