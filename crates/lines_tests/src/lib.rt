//! Credit lines on examples whose figures were worked out by hand.
#![tactic(auto)]

#[cfg(test)]
mod tests {
    use lines::{Deal, Fault, LessUsed, Lines, Refusal};
    use std::test::Fail;

    // 500 lots at a price of 98,250.
    const VALUE: u64 = 49_125_000;

    const BUYER: u8 = 3;

    const SELLER: u8 = 7;

    // Both sides pledge.
    const DEAL: Deal = Deal {
        pledges: (true, true),
        buyer: BUYER,
        seller: SELLER,
        value: VALUE,
    };

    // The same for another value.
    fn worth(value: u64) -> Deal {
        Deal { value, ..DEAL }
    }

    // The buyer's line on the seller and the seller's on the buyer, with these limits.
    fn opened(buyers: u64, sellers: u64) -> Result<Lines, Refusal> {
        let mut lines = Lines::new();
        lines.set_limit(BUYER, SELLER, buyers)?;
        lines.set_limit(SELLER, BUYER, sellers)?;
        Ok(lines)
    }

    // Limit and used of a line.
    fn figures(lines: &Lines, granter: u8, counterparty: u8) -> Result<(u64, u64), Refusal> {
        let line = lines.line(granter, counterparty)?;
        Ok((line.limit, line.used))
    }

    // Those of the buyer's line on the seller and of the seller's on the buyer.
    fn both(lines: &Lines) -> Result<((u64, u64), (u64, u64)), Refusal> {
        Ok((
            figures(lines, BUYER, SELLER)?,
            figures(lines, SELLER, BUYER)?,
        ))
    }

    const BUYERS_SHORT: Fault = Fault::Short {
        granter: 3,
        counterparty: 7,
        pesos: 1,
    };

    const SELLERS_SHORT: Fault = Fault::Short {
        granter: 7,
        counterparty: 3,
        pesos: 1,
    };

    #[test]
    fn a_peso_short(rt: HostRuntime) -> Result<(), Fail> {
        for (buyers, sellers, answer) in [
            (VALUE, VALUE, Ok(())),
            (49_124_999, VALUE, Err(BUYERS_SHORT)),
            (VALUE, 49_124_999, Err(SELLERS_SHORT)),
            (49_124_999, 49_124_999, Err(BUYERS_SHORT)),
        ] {
            let lines = opened(buyers, sellers)?;
            assert_eq!(rt; lines.may_trade(DEAL), answer);
        }
        Ok(())
    }

    #[test]
    fn only_pledging_sides_count(rt: HostRuntime) -> Result<(), Fail> {
        let lines = opened(0, VALUE)?;
        for (pledges, value, answer) in [
            ((false, true), VALUE, Ok(())),
            ((false, true), 49_125_001, Err(SELLERS_SHORT)),
            ((true, false), 1, Err(BUYERS_SHORT)),
            ((false, false), 200_000_000_000, Ok(())),
        ] {
            let deal = Deal {
                pledges,
                ..worth(value)
            };
            assert_eq!(rt; lines.may_trade(deal), answer);
        }
        Ok(())
    }

    #[test]
    fn own_house_then_blocks_then_lines(rt: HostRuntime) -> Result<(), Fail> {
        let mut lines = Lines::new();
        let deal = worth(1);
        let own = Deal {
            seller: BUYER,
            ..deal
        };
        let turned = Deal {
            buyer: SELLER,
            seller: BUYER,
            ..deal
        };
        assert_eq!(rt; lines.may_trade(own), Err(Fault::OwnHouse));
        assert_eq!(rt; lines.may_trade(deal), Err(BUYERS_SHORT));
        lines.set_block(SELLER, BUYER, true)?;
        assert_eq!(rt; lines.may_trade(deal), Err(Fault::Blocked { by: SELLER }));
        lines.set_block(BUYER, SELLER, true)?;
        assert_eq!(rt; lines.may_trade(deal), Err(Fault::Blocked { by: BUYER }));
        assert_eq!(rt; lines.may_trade(turned), Err(Fault::Blocked { by: SELLER }));
        lines.set_block(SELLER, BUYER, false)?;
        lines.set_block(BUYER, SELLER, false)?;
        assert_eq!(rt; lines.may_trade(turned), Err(SELLERS_SHORT));
        Ok(())
    }

    // An answer with the number of its refusal.
    fn numbered(answer: Result<(), Refusal>) -> Result<(), u8> {
        answer.map_err(|refusal| refusal.number())
    }

    #[test]
    fn limits_are_refused_in_order(rt: HostRuntime) -> Result<(), Fail> {
        let mut lines = Lines::new();
        for (granter, counterparty, pesos, answer) in [
            (16, 16, 1_000_000_000_000_001, Err(1)),
            (15, 16, 1, Err(1)),
            (16, 15, 1, Err(1)),
            (15, 15, 1_000_000_000_000_001, Err(2)),
            (15, 0, 1_000_000_000_000_001, Err(9)),
            (15, 0, 1_000_000_000_000_000, Ok(())),
            (0, 15, 1, Ok(())),
        ] {
            assert_eq!(rt;
                numbered(lines.set_limit(granter, counterparty, pesos)),
                answer
            );
        }
        assert_eq!(rt; figures(&lines, 15, 0)?, (1_000_000_000_000_000, 0));
        assert_eq!(rt; figures(&lines, 0, 15)?, (1, 0));
        Ok(())
    }

    #[test]
    fn a_limit_stays_at_what_is_used(rt: HostRuntime) -> Result<(), Fail> {
        let mut lines = opened(50_000_000, VALUE)?;
        lines.use_lines(DEAL)?;
        assert_eq!(rt;
            numbered(lines.set_limit(BUYER, SELLER, 49_124_999)),
            Err(9)
        );
        assert_eq!(rt; figures(&lines, BUYER, SELLER)?, (50_000_000, VALUE));
        assert_eq!(rt; numbered(lines.set_limit(BUYER, SELLER, VALUE)), Ok(()));
        assert_eq!(rt; figures(&lines, BUYER, SELLER)?, (VALUE, VALUE));
        Ok(())
    }

    #[test]
    fn blocks_and_shown_lines_are_refused_in_order(rt: HostRuntime) {
        let mut lines = Lines::new();
        assert_eq!(rt; lines.set_block(16, 16, true), Err(Refusal::NoHouse));
        assert_eq!(rt; lines.set_block(0, 16, true), Err(Refusal::NoHouse));
        assert_eq!(rt; lines.set_block(15, 15, true), Err(Refusal::OneHouse));
        assert_eq!(rt; lines.set_block(15, 0, true), Ok(()));
        assert_eq!(rt; figures(&lines, 16, 16), Err(Refusal::NoHouse));
        assert_eq!(rt; figures(&lines, 15, 16), Err(Refusal::NoHouse));
        assert_eq!(rt; figures(&lines, 15, 15), Err(Refusal::OneHouse));
        assert_eq!(rt; figures(&lines, 15, 0), Ok((0, 0)));
    }

    #[test]
    fn use_then_free_restores(rt: HostRuntime) -> Result<(), Fail> {
        let mut lines = opened(VALUE, 60_000_000)?;
        lines.use_lines(DEAL)?;
        assert_eq!(rt; both(&lines)?, ((VALUE, VALUE), (60_000_000, VALUE)));
        assert_eq!(rt; lines.use_lines(worth(1)), Err(BUYERS_SHORT));
        assert_eq!(rt; both(&lines)?, ((VALUE, VALUE), (60_000_000, VALUE)));
        lines.free_pair(DEAL)?;
        assert_eq!(rt; both(&lines)?, ((VALUE, 0), (60_000_000, 0)));
        lines.use_lines(Deal {
            pledges: (false, true),
            ..worth(1_000)
        })?;
        assert_eq!(rt; both(&lines)?, ((VALUE, 0), (60_000_000, 1_000)));
        Ok(())
    }

    #[test]
    fn more_than_is_used_is_not_freed(rt: HostRuntime) -> Result<(), Fail> {
        let mut lines = opened(VALUE, VALUE)?;
        lines.use_lines(DEAL)?;
        let buyers = LessUsed {
            granter: BUYER,
            counterparty: SELLER,
            used: VALUE,
        };
        assert_eq!(rt; lines.free(BUYER, SELLER, 49_125_001), Err(buyers));
        assert_eq!(rt; lines.free_pair(worth(49_125_001)), Err(buyers));
        assert_eq!(rt; both(&lines)?, ((VALUE, VALUE), (VALUE, VALUE)));
        lines.free(SELLER, BUYER, 125_000)?;
        let sellers = LessUsed {
            granter: SELLER,
            counterparty: BUYER,
            used: 49_000_000,
        };
        assert_eq!(rt; lines.free_pair(DEAL), Err(sellers));
        assert_eq!(rt; both(&lines)?, ((VALUE, VALUE), (VALUE, 49_000_000)));
        Ok(())
    }

    #[test]
    fn a_house_above_fifteen_has_no_line(rt: HostRuntime) -> Result<(), Fail> {
        let mut lines = opened(VALUE, VALUE)?;
        let buyer_16 = Deal {
            buyer: 16,
            ..worth(5)
        };
        let short_16 = Fault::Short {
            granter: 16,
            counterparty: 7,
            pesos: 5,
        };
        assert_eq!(rt; lines.may_trade(buyer_16), Err(short_16));
        let buyer_255 = Deal {
            pledges: (false, true),
            buyer: 255,
            ..worth(5)
        };
        let short_255 = Fault::Short {
            granter: 7,
            counterparty: 255,
            pesos: 5,
        };
        assert_eq!(rt; lines.use_lines(buyer_255), Err(short_255));
        let nothing = LessUsed {
            granter: 16,
            counterparty: 7,
            used: 0,
        };
        assert_eq!(rt; lines.free(16, SELLER, 1), Err(nothing));
        let worthless = Deal {
            value: 0,
            ..buyer_16
        };
        assert_eq!(rt; lines.use_lines(worthless), Ok(()));
        let most = Fault::Short {
            granter: 3,
            counterparty: 7,
            pesos: 18_446_744_073_660_426_615,
        };
        assert_eq!(rt; lines.may_trade(worth(u64::MAX)), Err(most));
        Ok(())
    }

    #[test]
    fn the_largest_value_is_short(rt: HostRuntime) -> Result<(), Fail> {
        let lines = opened(VALUE, VALUE)?;
        let most = Fault::Short {
            granter: 3,
            counterparty: 7,
            pesos: 18_446_744_073_660_426_615,
        };
        assert_eq!(rt; lines.may_trade(worth(u64::MAX)), Err(most));
        Ok(())
    }

    #[test]
    fn each_fault_has_its_case(rt: HostRuntime) {
        assert_eq!(rt; Fault::OwnHouse.case(), 1);
        assert_eq!(rt; Fault::Blocked { by: 0 }.case(), 2);
        assert_eq!(rt; BUYERS_SHORT.case(), 3);
    }
}
