//! What `obligations` makes of its lines, on figures worked by hand.
#![tactic(auto)]

use blotter::{Entry, Field, Flaw, read};
use book::Book;
use clerk::Stop;
use journal::Journal;
use ledger::{Ledger, NotPosted};
use lines::Fault;
use net_sheet::NetSheet;
use trades::{Kind, Trade};

#[cfg(test)]
mod tests {
    use super::*;
    use std::test::Fail;

    fn trade(kind: Kind, buyer: u8, seller: u8, lots: u32, quote: u32) -> Trade {
        Trade {
            kind,
            buyer,
            seller,
            paper: 0,
            lots,
            quote,
            days: 0,
        }
    }

    #[test]
    fn lines_are_read(rt: HostRuntime) {
        assert_eq!(rt; read(b""), Ok(None));
        assert_eq!(rt; read(b" \t # note"), Ok(None));
        assert_eq!(rt;
            read(b"limit 1 2 1000000000000000"),
            Ok(Some(Entry::Limit {
                granter: 1,
                counterparty: 2,
                pesos: 1_000_000_000_000_000
            }))
        );
        assert_eq!(rt;
            read(b"block 3 4 on\r"),
            Ok(Some(Entry::Block {
                house: 3,
                other: 4,
                on: true
            }))
        );
        assert_eq!(rt;
            read(b"block 3 4 off # no more"),
            Ok(Some(Entry::Block {
                house: 3,
                other: 4,
                on: false
            }))
        );
        assert_eq!(rt;
            read(b"rate 3 4 7 1000000 5000 365"),
            Ok(Some(Entry::Trade(Trade {
                kind: Kind::Rate,
                buyer: 3,
                seller: 4,
                paper: 7,
                lots: 1_000_000,
                quote: 5_000,
                days: 365,
            })))
        );
    }

    #[test]
    fn flaws_are_told(rt: HostRuntime) {
        assert_eq!(rt; read(b"bond 1 2 0 5 100 0"), Err(Flaw::Unknown));
        assert_eq!(rt; read(b"price 1 2 0 5 100"), Err(Flaw::Missing(Field::Days)));
        assert_eq!(rt;
            read(b"price 1 2 0 5 1e3 0"),
            Err(Flaw::NoNumber(Field::Quote))
        );
        assert_eq!(rt; read(b"price 1 2 0 5 100 0 9"), Err(Flaw::Surplus));
        assert_eq!(rt; read(b"limit 16 2 5"), Err(Flaw::NoHouse(Field::Granter)));
        assert_eq!(rt; read(b"block 1 2 yes"), Err(Flaw::NoSwitch));
    }

    #[test]
    fn figures_out_of_range_are_told(rt: HostRuntime) {
        assert_eq!(rt;
            read(b"price 16 16 8 0 0 366"),
            Err(Flaw::Trade(trades::Flaw::NoBuyer))
        );
        assert_eq!(rt;
            read(b"price 1 16 8 0 0 366"),
            Err(Flaw::Trade(trades::Flaw::NoSeller))
        );
        assert_eq!(rt;
            read(b"price 1 1 8 0 0 366"),
            Err(Flaw::Trade(trades::Flaw::OneHouse))
        );
        assert_eq!(rt;
            read(b"price 1 2 8 0 0 366"),
            Err(Flaw::Trade(trades::Flaw::NoPaper))
        );
        assert_eq!(rt;
            read(b"price 1 2 7 1000001 0 366"),
            Err(Flaw::Trade(trades::Flaw::Lots))
        );
        assert_eq!(rt;
            read(b"price 1 2 7 1 200001 366"),
            Err(Flaw::Trade(trades::Flaw::Quote(200_000)))
        );
        assert_eq!(rt;
            read(b"rate 1 2 7 1 5001 366"),
            Err(Flaw::Trade(trades::Flaw::Quote(5_000)))
        );
        assert_eq!(rt;
            read(b"price 1 2 7 1 200000 366"),
            Err(Flaw::Trade(trades::Flaw::Days))
        );
    }

    // A value of 49,125,000 each way, on lines of exactly that and of one peso less.
    #[test]
    fn lines_to_the_peso(rt: HostRuntime) {
        let sale = trade(Kind::Price, 1, 2, 500, 98_250);
        let mut day = Ledger::new(NetSheet::new());
        assert_eq!(rt; day.take(sale), Ok(49_125_000));
        assert_eq!(rt; day.set_limit(1, 2, 49_125_000), Ok(()));
        assert_eq!(rt; day.set_limit(2, 1, 49_124_999), Ok(()));
        assert_eq!(rt;
            day.take(sale),
            Err(NotPosted::PassedOver(Fault::Short {
                granter: 2,
                counterparty: 1,
                pesos: 1
            }))
        );
        assert_eq!(rt; day.set_limit(2, 1, 49_125_000), Ok(()));
        assert_eq!(rt; day.take(sale), Ok(49_125_000));
        assert_eq!(rt;
            day.take(sale),
            Err(NotPosted::PassedOver(Fault::Short {
                granter: 1,
                counterparty: 2,
                pesos: 49_125_000
            }))
        );
        assert_eq!(rt; (day.balance(1, 0), day.balance(2, 0)), (1_000, -1_000));
        assert_eq!(rt; (day.cash(1), day.cash(2)), (-98_250_000, 98_250_000));
    }

    // Only the lender's line counts between banks.
    #[test]
    fn only_the_lender_pledges(rt: HostRuntime) {
        let loan = trade(Kind::Interbank, 5, 6, 1, 1);
        let mut day = Ledger::new(NetSheet::new());
        assert_eq!(rt; day.set_limit(6, 5, 100_000), Ok(()));
        assert_eq!(rt; day.take(loan), Ok(100_000));
        assert_eq!(rt; day.set_block(5, 6, true), Ok(()));
        assert_eq!(rt;
            day.take(loan),
            Err(NotPosted::PassedOver(Fault::Blocked { by: 5 }))
        );
    }

    #[test]
    fn a_journal_takes_256_trades(rt: HostRuntime) {
        let sale = trade(Kind::Price, 1, 2, 1, 3);
        let mut day = Ledger::new(Journal::new());
        for _ in 0..256u16 {
            assert_eq!(rt; day.take(sale), Ok(3));
        }
        assert_eq!(rt;
            day.take(sale),
            Err(NotPosted::Refused(book::Refusal::NoPlace))
        );
        assert_eq!(rt; (day.balance(1, 0), day.cash(1)), (256, -768));
    }

    #[test]
    fn errors_name_line_and_cause(rt: HostRuntime) -> Result<(), Fail> {
        let heap = rt.alloc();
        let flawed = Stop::Flawed(3, Flaw::Trade(trades::Flaw::Quote(5_000)));
        assert!(rt;
            format!(in heap; "{flawed}")?.as_str() == "line 3: quote is not from 1 to 5000"
        );
        let missing = Stop::Flawed(1, Flaw::Missing(Field::Days));
        assert!(rt; format!(in heap; "{missing}")?.as_str() == "line 1: days is missing");
        let full = Stop::NotPosted(257, book::Refusal::NoPlace);
        assert!(rt;
            format!(in heap; "{full}")?.as_str()
                == "line 257: refused with 28: the book has no place left"
        );
        let limit = Stop::NotSet(8, lines::Refusal::BadLimit);
        assert!(rt;
            format!(in heap; "{limit}")?.as_str()
                == "line 8: refused with 9: the limit is below what is used, or above 10^15"
        );
        Ok(())
    }
}
