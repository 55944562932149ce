//! What sets one market apart from another, and the market that it makes.
ghost use Rattle.std.specs.Prelude.{◌≡◌, true};
ghost use Rattle.market.specs.Meaning.{Ranged, Dearer, between, tradable};
ghost use Rattle.market.specs.Makes.{Formulas, market};

use super::Market;
use super::terms::Terms;

fn quoted(quote: u32, highest: u32) -> bool
    ensures { result ≡ between 1 highest quote }
{
    (1..=highest).contains(&quote)
}

fn valued(terms: Terms, highest: u32) -> bool
    ensures { result ≡ tradable 1 highest terms.lots terms.quote terms.days }
{
    (1..=1_000_000).contains(&terms.lots) && quoted(terms.quote, highest) && terms.days <= 365
}

// A make of market, whose quotes run from 1 up to its highest: it answers for what is in range alone, by names of its own, since each make has the methods of `Market` too.
pub trait Make {
    ghost formulas: { Formulas };

    // Functions, and no constants: a constant would want a ghost twin and a law that ties it to the formulas.
    fn highest_quote() -> u32
        ensures { result ≡ formulas.highest };

    fn rank_of(quote: u32) -> u32
        requires { between 1 formulas.highest quote ≡ true }
        ensures { result ≡ formulas.rank quote };

    fn worth(terms: Terms) -> u64
        requires { tradable 1 formulas.highest terms.lots terms.quote terms.days ≡ true }
        ensures { result ≡ formulas.value terms.lots terms.quote terms.days };

    fn sides_that_pledge() -> (bool, bool)
        ensures { result ≡ formulas.pledges };

    ghost ranged: { Ranged (market formulas) };

    ghost dearer: { Dearer (market formulas) };
}

impl<M: Make> Market for M {
    ghost meaning = { λ _. market M.formulas };

    ghost ranged = { λ m. M.ranged };

    ghost dearer = { λ m. M.dearer };

    fn lowest(&self) -> u32 {
        1
    }

    fn highest(&self) -> u32 {
        M::highest_quote()
    }

    fn rank(&self, quote: u32) -> u32 {
        if quoted(quote, M::highest_quote()) {
            M::rank_of(quote)
        } else {
            0
        }
    }

    fn value(&self, terms: Terms) -> u64 {
        if valued(terms, M::highest_quote()) {
            M::worth(terms)
        } else {
            0
        }
    }

    fn pledges(&self) -> (bool, bool) {
        M::sides_that_pledge()
    }
}
