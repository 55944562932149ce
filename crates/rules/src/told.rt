//! The number of each refusal, and the refusals of the parts below.
ghost use Rattle.std.specs.Prelude.{◌≡◌};
ghost use Rattle.rules.specs.Refusals.{told, from_lines, from_book};
ghost use Rattle.rules.specs.declared.refusal.Refusal.TheVariants.{MayNotTrade};

use super::refusal::Refusal;
use lines::Fault;

impl Refusal {
    // The number that a refusal is known by: a match, since `MayNotTrade` holds data and so no variant has a discriminant to cast.
    pub fn number(&self) -> u8
        ensures { result ≡ (told self.now).0 }
    {
        match self {
            Refusal::NoHouse => 1,
            Refusal::OneHouse => 2,
            Refusal::NoPaper => 3,
            Refusal::BadLots => 4,
            Refusal::BadQuote => 5,
            Refusal::BadLapse => 6,
            Refusal::BadClock => 7,
            Refusal::OutOfHours => 8,
            Refusal::LimitOrDays => 9,
            Refusal::TermFixed => 10,
            Refusal::NoOffer => 11,
            Refusal::NoClose => 12,
            Refusal::PaperExposed => 13,
            Refusal::NotBetter => 14,
            Refusal::MayNotTrade(_) => 15,
            Refusal::BoardFull => 16,
            Refusal::TapeFull => 17,
            Refusal::NoRoom => 18,
            Refusal::NoNumber => 19,
            Refusal::BadJury => 20,
            Refusal::NoParty => 21,
            Refusal::WrongStage => 22,
            Refusal::NoCase => 23,
            Refusal::NoVote => 24,
            Refusal::Undecided => 25,
            Refusal::PageShort => 26,
            Refusal::BadPosting => 27,
            Refusal::NoPlace => 28,
        }
    }
}

// The conversions are by hand, since a derived one has no contract.
impl From<Fault> for Refusal {
    ghost from_gives = { λ f r. r ≡ MayNotTrade f };

    fn from(fault: Fault) -> Refusal {
        Refusal::MayNotTrade(fault)
    }
}

impl From<lines::Refusal> for Refusal {
    ghost from_gives = { λ f r. r ≡ from_lines f };

    fn from(refusal: lines::Refusal) -> Refusal {
        match refusal {
            lines::Refusal::NoHouse => Refusal::NoHouse,
            lines::Refusal::OneHouse => Refusal::OneHouse,
            lines::Refusal::BadLimit => Refusal::LimitOrDays,
        }
    }
}

impl From<book::Refusal> for Refusal {
    ghost from_gives = { λ f r. r ≡ from_book f };

    fn from(refusal: book::Refusal) -> Refusal {
        match refusal {
            book::Refusal::BadPosting => Refusal::BadPosting,
            book::Refusal::NoPlace => Refusal::NoPlace,
        }
    }
}
