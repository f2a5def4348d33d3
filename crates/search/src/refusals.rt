// Why a call is refused.
ghost use Rattle.std.specs.Prelude.{◌≡◌, []};
ghost use Rattle.runs.specs.Calls.{refusal_number};
ghost use Rattle.search.specs.Refusals.{grant_refused, held_refused, offer_refused};

#[derive(Clone, Copy, PartialEq, Eq, Debug)]
pub enum GrantRefusal {
    OutOfRange,
}

// The place of the entry that is refused, and of the first earlier one that it doesn't fit.
#[derive(Clone, Copy, PartialEq, Eq, Debug)]
pub enum OfferRefusal {
    NotBelow(usize),
    NotAbove(usize),
    NotFitting(usize, usize),
}

#[derive(Clone, Copy, PartialEq, Eq, Debug)]
pub enum HeldRefusal {
    NoneHeld,
    TooShort,
}

impl GrantRefusal {
    // The number that the refusal is told by.
    pub fn number(self) -> u16
        ensures { result ≡ refusal_number (grant_refused self) }
    {
        match self {
            GrantRefusal::OutOfRange => 31,
        }
    }
}

impl OfferRefusal {
    // The number that the refusal is told by.
    pub fn number(self) -> u16
        ensures { result ≡ refusal_number (offer_refused self) }
    {
        match self {
            OfferRefusal::NotBelow(_) => 32,
            OfferRefusal::NotAbove(_) => 33,
            OfferRefusal::NotFitting(_, _) => 34,
        }
    }
}

impl HeldRefusal {
    // The number that the refusal is told by.
    pub fn number(self) -> u16
        ensures { result ≡ refusal_number (held_refused self []) }
    {
        match self {
            HeldRefusal::NoneHeld => 35,
            HeldRefusal::TooShort => 36,
        }
    }
}
