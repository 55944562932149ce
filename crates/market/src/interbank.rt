ghost use Rattle.std.specs.Prelude.{◌≡◌};
ghost use Rattle.market.specs.Makes.{interbank_formulas, nearest};
ghost use Rattle.market.specs.Formulas.{interbank_ranged, interbank_dearer};

use super::make::Make;
use super::terms::Terms;
use super::units::{LOT, WHOLE};

// Quotes are yearly rates in basis points, at which the buyer borrows the lots.
#[derive(Clone, Copy)]
pub struct Interbank;

// The interest for an amount of pesos × basis points × days, to the nearest peso, halves up.
fn interest(amount: u64) -> u64
    ensures { result ≡ nearest amount 3650000 }
{
    let whole = amount / WHOLE;
    if amount % WHOLE * 2 >= WHOLE {
        whole + 1
    } else {
        whole
    }
}

impl Make for Interbank {
    ghost formulas = { interbank_formulas };

    ghost ranged = { interbank_ranged };

    ghost dearer = { interbank_dearer };

    fn highest_quote() -> u32 {
        5_000
    }

    fn rank_of(quote: u32) -> u32 {
        quote
    }

    fn worth(terms: Terms) -> u64 {
        let principal = u64::from(terms.lots) * LOT;
        let span = u64::from(terms.quote) * u64::from(terms.days);
        principal + interest(principal * span)
    }

    fn sides_that_pledge() -> (bool, bool) {
        (false, true)
    }
}
