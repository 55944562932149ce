ghost use Rattle.market.specs.Makes.{rate_formulas};
ghost use Rattle.market.specs.Formulas.{rate_ranged, rate_dearer};

use super::make::Make;
use super::terms::Terms;
use super::units::{LOT, WHOLE};

// Quotes are yearly rates in basis points: the higher the rate, the cheaper the paper.
#[derive(Clone, Copy)]
pub struct Rate;

const HIGHEST: u32 = 5_000;

impl Make for Rate {
    ghost formulas = { rate_formulas };

    ghost ranged = { rate_ranged };

    ghost dearer = { rate_dearer };

    fn highest_quote() -> u32 {
        HIGHEST
    }

    fn rank_of(quote: u32) -> u32 {
        (HIGHEST + 1) - quote
    }

    fn worth(terms: Terms) -> u64 {
        let span = u64::from(terms.quote) * u64::from(terms.days);
        u64::from(terms.lots) * (LOT * WHOLE / (WHOLE + span))
    }

    fn sides_that_pledge() -> (bool, bool) {
        (true, true)
    }
}
