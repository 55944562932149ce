ghost use Rattle.std.specs.Prelude.{◌≡◌, true, Some, IfOk};
ghost use Rattle.std.specs.Result.{result_err};
ghost use Rattle.book.specs.Sheet.{acceptable, parties_fit, terms_fit, exchanged, first_refusal, refusal_number, refusal_text};

use super::posting::{Posting, Refusal};
use std::fmt;

pub const HOUSES: u8 = 16;

pub const PAPERS: u8 = 8;

pub const MOST_LOTS: u32 = 1_000_000;

pub const MOST_PESOS: u64 = 200_000_000_000;

impl Refusal {
    // The number that the refusal is known by.
    pub fn number(self) -> u8
        ensures { result ≡ refusal_number self }
    {
        self as u8
    }
}

// By hand, since what a derive prints has no contract.
impl fmt::Display for Refusal {
    ghost output = { λ why. Some (refusal_text why) };

    fn fmt<W: fmt::Write>(&self, f: &mut fmt::Formatter<W>) -> fmt::Result {
        match self {
            Refusal::BadPosting => f.write_str("the posting is out of range"),
            Refusal::NoPlace => f.write_str("the book has no place left"),
        }
    }
}

// A posting that a book with a place takes.
#[derive(Clone, Copy)]
pub struct Accepted {
    pub posting: Posting,
    pub ghost fits: { acceptable posting ≡ true },
}

impl Posting {
    // Buyer and seller exchanged.
    pub fn exchanged(self) -> Posting
        ensures { result ≡ exchanged self }
    {
        Posting {
            buyer: self.seller,
            seller: self.buyer,
            ..self
        }
    }

    // Whether two houses trade, and not one with itself.
    fn parties_fit(self) -> bool
        ensures { result ≡ parties_fit self }
    {
        self.buyer < HOUSES && self.seller < HOUSES && self.buyer != self.seller
    }

    // Whether there is such a paper, and lots and pesos lie in their ranges.
    fn terms_fit(self) -> bool
        ensures { result ≡ terms_fit self }
    {
        self.paper < PAPERS
            && (1..=MOST_LOTS).contains(&self.lots)
            && (1..=MOST_PESOS).contains(&self.pesos)
    }

    // Whether a book with a place takes the posting.
    #[tactic(auto, unfolding(crate::specs::Sheet::acceptable))]
    fn is_acceptable(self) -> bool
        ensures { result ≡ acceptable self }
    {
        self.parties_fit() && self.terms_fit()
    }

    // The posting as one that a book with so many places takes, or the first reason why it does not.
    pub fn accept(self, places: u32) -> Result<Accepted, Refusal>
        ensures refused { result_err result ≡ first_refusal places self }
        ensures holds { IfOk result (λ accepted. accepted.posting ≡ self) }
    {
        if !self.is_acceptable() {
            return Err(Refusal::BadPosting);
        }
        if places == 0 {
            return Err(Refusal::NoPlace);
        }
        Ok(Accepted { posting: self })
    }
}
