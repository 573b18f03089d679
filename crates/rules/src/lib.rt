// Document 01, and the requests of document 02 that are built, as definitions, in specs/, and computed cases of them, in proofs/. The code
// is the types, and their numbers there and back.
#![tactic(auto)]

ghost use Rattle.std.specs.Prelude.{◌≡◌};
ghost use Rattle.rules.specs.Refusals.{refusal_number};
ghost use Rattle.rules.specs.Profiles.{Named};

// Which shares a list keeps to: document 01's, or those of document 02, (v). Outside it is a number, 1 or 2.
#[derive(Clone, Copy, PartialEq, Eq, Debug)]
pub enum Profile {
    First,
    Second,
}

// A number that names none is refused by 15.
impl TryFrom<u64> for Profile {
    type Error = Refusal;

    ghost try_from_gives = { Named };

    fn try_from(number: u64) -> Result<Profile, Refusal> {
        match number {
            1 => Ok(Profile::First),
            2 => Ok(Profile::Second),
            _ => Err(Refusal::UnknownProfile),
        }
    }
}

// Why a call, a request or a record is refused: a variant for each number of the documents, in order of testing: 15, 1, 12, 2, 13,
// 3, 4, 14, 5 to 10.
#[derive(Clone, Copy, PartialEq, Eq, Debug)]
pub enum Refusal {
    UnknownProfile,
    WrongLength,
    WrongCards,
    WrongOrder,
    CardInGap,
    TooManyKeys,
    WrongForecast,
    WrongTable,
    KeyZero,
    KeyPresent,
    KeyAbsent,
    Full,
    BadRecord,
    AllowancePassed,
}

// The number of a refusal.
impl From<Refusal> for u64 {
    ghost from_gives = { λ refusal number. number ≡ refusal_number refusal };

    fn from(refusal: Refusal) -> u64 {
        match refusal {
            Refusal::UnknownProfile => 15,
            Refusal::WrongLength => 1,
            Refusal::WrongCards => 12,
            Refusal::WrongOrder => 2,
            Refusal::CardInGap => 13,
            Refusal::TooManyKeys => 3,
            Refusal::WrongForecast => 4,
            Refusal::WrongTable => 14,
            Refusal::KeyZero => 5,
            Refusal::KeyPresent => 6,
            Refusal::KeyAbsent => 7,
            Refusal::Full => 8,
            Refusal::BadRecord => 9,
            Refusal::AllowancePassed => 10,
        }
    }
}

// What a check, a step or a run comes to.
pub type Verdict = Result<(), Refusal>;

// What a request record asks for. Bad is no request: it stands for a record that is short or has a wrong mark or kind.
#[derive(Clone, Copy, PartialEq, Eq, Debug)]
pub enum Request {
    Insert(u64),
    Delete(u64),
    Bad,
}

// A request record: what it asks for, the card that comes with it, and its number of bytes.
#[derive(Clone, Copy)]
pub struct Record {
    pub request: Request,
    pub card: u32,
    pub size: usize,
}

// The four totals of runs, each modulo 2^32.
#[repr(C)]
#[derive(Clone, Copy)]
pub struct Totals {
    pub worked: u32,
    pub refused: u32,
    pub moved: u32,
    pub sweeps: u32,
}

// What a run has counted: records worked (refused ones included), records refused, moves, sweeps, and the byte place of the next record.
#[repr(C)]
#[derive(Clone, Copy)]
pub struct Tally {
    pub worked: usize,
    pub refused: usize,
    pub moves: u64,
    pub sweeps: usize,
    pub place: usize,
}
