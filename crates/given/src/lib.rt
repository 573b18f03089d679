// What each call for C programs gives, as definitions, with when each number is given and what a refusal leaves; and a number with its values.
#![tactic(auto)]

ghost use Rattle.std.specs.Prelude.{◌≡◌};
ghost use Rattle.rules.specs.Refusals.{refusal_number};

use rules::Refusal;

// A number, and the values that come with it: what a C program is told, word by word.
#[derive(Clone, Copy, PartialEq, Eq, Default, Debug)]
pub struct Told {
    pub number: u64,
    pub first: u64,
    pub second: u64,
    pub third: u64,
}

// A refusal tells its number alone.
impl From<Refusal> for Told {
    ghost from_gives = { λ refusal told. told ≡ record { number = refusal_number refusal; first = 0; second = 0; third = 0 } };

    fn from(refusal: Refusal) -> Told {
        Told {
            number: u64::from(refusal),
            ..Told::default()
        }
    }
}
