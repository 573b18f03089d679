// A window swept by a plan that is made: its keys packed, a key put in or taken out, and all dealt out, in place, each with its card.
#![tactic(auto)]

ghost use Rattle.std.specs.Prelude.{◌≡◌, true, map, ℕ, length};
ghost use Rattle.lists.specs.Lists.{deal};
ghost use Rattle.slots.specs.Segments.{keys, segments_of, render};
ghost use Rattle.slots.specs.Keys.{changed};
ghost use Rattle.sowing.specs.Sown.{Planted};

use spreads::Newcomer;

// `counts` are those of the segments before, `plan` those after; `p` is the key's place among the window's keys, and `card`
// that of a key put in.
pub fn sow(
    window: &mut [u64],
    cards: &mut [u32],
    counts: &[usize],
    plan: &[usize],
    p: usize,
    key: u64,
    card: u32,
    grows: bool,
)
    requires planted { Planted window.old counts.now plan.now p key grows }
    requires cards_len { length cards.old ≡ length window.old }
    ensures keys { window.new ≡ render 0 (deal plan.now (changed grows key (keys (segments_of window.old)))) }
    ensures cards { (f : ℕ → ℕ) → f 0 ≡ 0 → (grows ≡ true → f key ≡ card) → cards.old ≡ map f window.old → cards.new ≡ map f window.new }
{
    let m = spreads::pack(window, cards, counts);
    if grows {
        let newcomer = Newcomer {
            place: p,
            key,
            card,
        };
        spreads::spread(window, cards, plan, m + 1, Some(newcomer));
        return;
    }
    gaps::close_gap(window, cards, m, p);
    spreads::spread(window, cards, plan, m - 1, None);
}
