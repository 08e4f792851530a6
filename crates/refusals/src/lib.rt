// Why an entry gives no answer, and where: the names, and the number of each.
#![tactic(auto)]

ghost use Rattle.std.specs.Prelude.{◌≡◌};
ghost use Rattle.refusals.specs.Refusal.{refusal_number, refused};

// Why there is no answer.
#[derive(Clone, Copy, Debug, PartialEq, Eq)]
pub enum Refusal {
    TooLong,
    BadTable,
    End,
    NoAtom,
    NeedClose,
    NeedComma,
    NeedName,
    NeedNullOrNan,
    LeftOver,
    BadNumber,
    TooDeep,
    NoRoom,
    BadTree,
    TooMany,
    NoList,
    NotLookup,
    NoSuch,
}

// What an entry answers where it gives no answer: why, and the place that FORMAT §11 says. The place comes first: in a step's answer it then lies where
// a cursor has its token, and the compiled reader keeps that out of memory.
#[derive(Clone, Copy, Debug, PartialEq, Eq)]
pub struct Refused {
    pub place: usize,
    pub why: Refusal,
}

impl Refusal {
    // Answers this refusal at a place.
    pub fn at(self, place: usize) -> Refused
        ensures { result ≡ refused self place }
    {
        Refused { place, why: self }
    }
}

// The number by which callers know a refusal. The four that need some token are WRONG_TOKEN to them.
impl From<Refusal> for u32 {
    ghost use Rattle.std.specs.Prelude.{◌≡◌};
    ghost use Rattle.refusals.specs.Refusal.{refusal_number};

    ghost from_gives = { λ why n. n ≡ refusal_number why };

    fn from(why: Refusal) -> u32 {
        match why {
            Refusal::TooLong => 1,
            Refusal::BadTable => 2,
            Refusal::End => 3,
            Refusal::NoAtom => 4,
            Refusal::NeedClose | Refusal::NeedComma => 5,
            Refusal::NeedName | Refusal::NeedNullOrNan => 5,
            Refusal::LeftOver => 6,
            Refusal::BadNumber => 7,
            Refusal::TooDeep => 8,
            Refusal::NoRoom => 9,
            Refusal::BadTree => 10,
            Refusal::TooMany => 11,
            Refusal::NoList => 12,
            Refusal::NotLookup => 13,
            Refusal::NoSuch => 14,
        }
    }
}
