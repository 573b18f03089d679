// High and low shares, in keys per segment, as constant tables of both profiles' rows, and all that a list keeps to by its shape.
#![tactic(auto)]

ghost use Rattle.std.specs.Prelude.{◌≡◌, ◌≤◌, ◌*◌, ◌^◌, get_or};
ghost use Rattle.rules.specs.Profiles.{profile_of};
ghost use Rattle.rules.specs.Shares.{shares};
ghost use Rattle.shares.specs.Rows.{Rows, Fetched};

use rules::Profile;

// The high and the low share of each level, of one height.
#[derive(Clone, Copy, PartialEq, Eq, Debug)]
pub struct LevelShares {
    pub highs: [u8; 7],
    pub lows: [u8; 7],
}

// By height, from 1 upward.
const FIRST: [LevelShares; 6] = [
    LevelShares {
        highs: [64, 32, 0, 0, 0, 0, 0],
        lows: [7, 13, 0, 0, 0, 0, 0],
    },
    LevelShares {
        highs: [64, 48, 32, 0, 0, 0, 0],
        lows: [7, 10, 13, 0, 0, 0, 0],
    },
    LevelShares {
        highs: [64, 53, 42, 32, 0, 0, 0],
        lows: [7, 9, 11, 13, 0, 0, 0],
    },
    LevelShares {
        highs: [64, 56, 48, 40, 32, 0, 0],
        lows: [7, 8, 10, 12, 13, 0, 0],
    },
    LevelShares {
        highs: [64, 57, 51, 44, 38, 32, 0],
        lows: [7, 8, 9, 11, 12, 13, 0],
    },
    LevelShares {
        highs: [64, 58, 53, 48, 42, 37, 32],
        lows: [7, 8, 9, 10, 11, 12, 13],
    },
];

const SECOND: [LevelShares; 6] = [
    LevelShares {
        highs: [58, 44, 0, 0, 0, 0, 0],
        lows: [6, 20, 0, 0, 0, 0, 0],
    },
    LevelShares {
        highs: [58, 51, 44, 0, 0, 0, 0],
        lows: [6, 13, 20, 0, 0, 0, 0],
    },
    LevelShares {
        highs: [58, 54, 49, 44, 0, 0, 0],
        lows: [6, 10, 15, 20, 0, 0, 0],
    },
    LevelShares {
        highs: [58, 55, 51, 48, 44, 0, 0],
        lows: [6, 9, 13, 16, 20, 0, 0],
    },
    LevelShares {
        highs: [58, 56, 53, 50, 47, 44, 0],
        lows: [6, 8, 11, 14, 17, 20, 0],
    },
    LevelShares {
        highs: [58, 56, 54, 51, 49, 47, 44],
        lows: [6, 8, 10, 13, 15, 17, 20],
    },
];

// 2 to the power of a level.
pub fn power(l: usize) -> usize
    requires { l ≤ 6 }
    ensures { (result ≡ 2 ^ l) × (result ≤ 64) × (1 ≤ result) }
{
    1 << l
}

// The profile that a number names; the first for a number that names none.
pub fn profile_of(n: u64) -> Profile
    ensures { result ≡ profile_of n }
{
    if n == 2 {
        return Profile::Second;
    }
    Profile::First
}

// All that a list keeps to, fetched once for a call: its number of cells, the most keys that it holds, the number of keys under which it is
// sparse, a segment's high and low, the shares by level, and the profile that all of them are of.
#[derive(Clone, Copy, PartialEq, Eq, Debug)]
pub struct Shape {
    pub height: usize,
    pub cells: usize,
    pub capacity: usize,
    pub floor: usize,
    pub high: usize,
    pub low: usize,
    pub levels: LevelShares,
    pub profile: Profile,
}

// The shares of a height.
fn levels(profile: Profile, h: usize) -> LevelShares
    requires { (1 ≤ h) × (h ≤ 6) }
    ensures rows { Rows (shares profile h) result.lows result.highs }
    ensures small { (get_or result.highs h 0 ≤ 64) × (get_or result.lows h 0 ≤ 20) }
{
    match profile {
        Profile::First => FIRST[h - 1],
        Profile::Second => SECOND[h - 1],
    }
}

pub fn shape_of(profile: Profile, h: usize) -> Shape
    requires { (1 ≤ h) × (h ≤ 6) }
    ensures { (result.profile ≡ profile) × Fetched (shares profile h) result }
{
    let segments = power(h);
    let levels = levels(profile, h);
    let LevelShares { highs, lows } = levels;
    Shape {
        height: h,
        cells: 6 + h,
        capacity: segments * usize::from(highs[h]),
        floor: segments * usize::from(lows[h]),
        high: usize::from(highs[0]),
        low: usize::from(lows[0]),
        levels,
        profile,
    }
}
