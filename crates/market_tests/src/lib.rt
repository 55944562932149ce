//! Figures of the three markets, worked by hand, at every edge of every range.
#![tactic(auto)]

use market::{Interbank, Market, Price, Rate, Terms};

#[cfg(test)]
mod tests {
    use super::*;
    use std::process::Abort;

    // Lots, quote, days, and what they are worth.
    struct Worth(u32, u32, u32, u64);

    fn check_worth<M: Market>(rt: &impl Abort, market: &M, cases: &[Worth]) {
        for Worth(lots, quote, days, pesos) in cases {
            let terms = Terms {
                lots: *lots,
                quote: *quote,
                days: *days,
            };
            assert_eq!(rt; market.value(terms), *pesos);
        }
    }

    // A quote and its rank.
    struct Ranks(u32, u32);

    fn check_ranks<M: Market>(rt: &impl Abort, market: &M, cases: &[Ranks]) {
        for Ranks(quote, rank) in cases {
            assert_eq!(rt; market.rank(*quote), *rank);
        }
    }

    #[test]
    fn price_is_lots_times_quote(rt: HostRuntime) {
        check_worth(
            &rt,
            &Price,
            &[
                Worth(500, 98_250, 0, 49_125_000),
                Worth(1, 1, 0, 1),
                Worth(1, 200_000, 365, 200_000),
                Worth(1_000_000, 1, 0, 1_000_000),
                Worth(1_000_000, 200_000, 365, 200_000_000_000),
                Worth(0, 98_250, 0, 0),
                Worth(1_000_001, 98_250, 0, 0),
                Worth(500, 0, 0, 0),
                Worth(500, 200_001, 0, 0),
                Worth(500, 98_250, 366, 0),
            ],
        );
    }

    #[test]
    fn rate_discounts(rt: HostRuntime) {
        check_worth(
            &rt,
            &Rate,
            &[
                // 365,000,000,000 / 3,740,000 = 97,593 and a part
                Worth(20, 1_000, 90, 1_951_860),
                // no days, no discount
                Worth(1, 1, 0, 100_000),
                Worth(1_000_000, 5_000, 0, 100_000_000_000),
                // 365,000,000,000 / 3,650,001 is just below 100,000
                Worth(1, 1, 1, 99_999),
                // 365,000,000,000 / 3,650,365 = 99,990 and a part
                Worth(1, 1, 365, 99_990),
                // 365,000,000,000 / 5,475,000 = 66,666 and two thirds
                Worth(1, 5_000, 365, 66_666),
                Worth(1_000_000, 5_000, 365, 66_666_000_000),
                Worth(0, 1_000, 90, 0),
                Worth(1_000_001, 1_000, 90, 0),
                Worth(20, 0, 90, 0),
                Worth(20, 5_001, 90, 0),
                Worth(20, 1_000, 366, 0),
            ],
        );
    }

    #[test]
    fn interbank_adds_interest(rt: HostRuntime) {
        check_worth(
            &rt,
            &Interbank,
            &[
                // 3,000,000 × 5,600 / 3,650,000 = 4,602.7 and a part
                Worth(30, 800, 7, 3_004_603),
                Worth(1, 1, 0, 100_000),
                // 100,000 × 18 / 3,650,000 is 0.493, and at 19 it is 0.521
                Worth(1, 18, 1, 100_000),
                Worth(1, 19, 1, 100_001),
                Worth(1, 1, 18, 100_000),
                Worth(1, 1, 19, 100_001),
                // half of the principal
                Worth(1, 5_000, 365, 150_000),
                Worth(1_000_000, 5_000, 365, 150_000_000_000),
                // 100,000,000,000 / 3,650,000 = 27,397.26
                Worth(1_000_000, 1, 1, 100_000_027_397),
                Worth(0, 800, 7, 0),
                Worth(1_000_001, 800, 7, 0),
                Worth(30, 0, 7, 0),
                Worth(30, 5_001, 7, 0),
                Worth(30, 800, 366, 0),
            ],
        );
    }

    #[test]
    fn ranks_at_their_edges(rt: HostRuntime) {
        check_ranks(
            &rt,
            &Price,
            &[
                Ranks(0, 0),
                Ranks(1, 1),
                Ranks(200_000, 200_000),
                Ranks(200_001, 0),
            ],
        );
        check_ranks(&rt, &Rate, &[Ranks(900, 4_101), Ranks(901, 4_100)]);
        check_ranks(
            &rt,
            &Rate,
            &[
                Ranks(0, 0),
                Ranks(1, 5_000),
                Ranks(5_000, 1),
                Ranks(5_001, 0),
            ],
        );
        check_ranks(
            &rt,
            &Interbank,
            &[
                Ranks(0, 0),
                Ranks(1, 1),
                Ranks(5_000, 5_000),
                Ranks(5_001, 0),
            ],
        );
    }

    #[test]
    fn quotes_and_pledges(rt: HostRuntime) {
        assert_eq!(rt; (Price.lowest(), Price.highest()), (1, 200_000));
        assert_eq!(rt; (Rate.lowest(), Rate.highest()), (1, 5_000));
        assert_eq!(rt; (Interbank.lowest(), Interbank.highest()), (1, 5_000));
        assert_eq!(rt; Price.pledges(), (true, true));
        assert_eq!(rt; Rate.pledges(), (true, true));
        assert_eq!(rt; Interbank.pledges(), (false, true));
    }
}
