ghost use Rattle.market.specs.Makes.{price_formulas};
ghost use Rattle.market.specs.Formulas.{price_ranged, price_dearer};

use super::make::Make;
use super::terms::Terms;

// Quotes are prices, in thousandths of one per cent of nominal.
#[derive(Clone, Copy)]
pub struct Price;

impl Make for Price {
    ghost formulas = { price_formulas };

    ghost ranged = { price_ranged };

    ghost dearer = { price_dearer };

    fn highest_quote() -> u32 {
        200_000
    }

    fn rank_of(quote: u32) -> u32 {
        quote
    }

    fn worth(terms: Terms) -> u64 {
        u64::from(terms.lots) * u64::from(terms.quote)
    }

    fn sides_that_pledge() -> (bool, bool) {
        (true, true)
    }
}
