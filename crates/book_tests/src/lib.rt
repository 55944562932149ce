//! The tests of `book`, `journal` and `net_sheet`.
#![tactic(auto)]

ghost use Rattle.book.specs.Laws.{Balanced};
ghost use Rattle.book.specs.Sheet.{Clear};
ghost use Rattle.journal.specs.Meaning.{journal_sheet};
ghost use Rattle.net_sheet.specs.Meaning.{net_sheet};

use book::{Book, Posting, post_all};
use journal::Journal;
use net_sheet::NetSheet;

#[cfg(test)]
mod tests {
    use super::*;
    use book::{Book, Refusal, take_back};
    use std::process::Abort;

    fn of(buyer: u8, seller: u8, paper: u8, lots: u32, pesos: u64) -> Posting {
        Posting {
            buyer,
            seller,
            paper,
            lots,
            pesos,
        }
    }

    // The first law, over any book that begins with every balance zero.
    fn posted<B: Book>(mut book: B, postings: &[Posting]) -> B
        requires { Clear (B.Book.sheet book) }
        ensures { Balanced (B.Book.sheet result) }
    {
        let _ = post_all(&mut book, postings);
        book
    }

    // The first law at a journal, with nothing left to assume.
    fn journal_of(postings: &[Posting]) -> Journal
        ensures { Balanced (journal_sheet result) }
    {
        posted(Journal::new(), postings)
    }

    // The first law at a net sheet, with nothing left to assume.
    fn net_sheet_of(postings: &[Posting]) -> NetSheet
        ensures { Balanced (net_sheet result) }
    {
        posted(NetSheet::new(), postings)
    }

    // The answer to a posting, with a refusal by its number.
    fn answer<B: Book>(book: &mut B, posting: Posting) -> Result<(), u8> {
        book.post(posting).map_err(|why| why.number())
    }

    // Every balance is zero, also those of what is no house or paper.
    fn check_clear<B: Book>(rt: &impl Abort, book: &B) {
        for house in 0..18u8 {
            assert_eq!(rt; book.cash(house), 0);
            for paper in 0..10u8 {
                assert_eq!(rt; book.balance(house, paper), 0);
            }
        }
    }

    // Three accepted postings and a refused one, on any book with every balance zero and some places.
    fn check_trades<B: Book>(rt: &impl Abort, book: &mut B, places: u32) {
        let postings = [
            of(1, 2, 3, 100, 5_000),
            of(2, 4, 3, 30, 1_600),
            of(1, 1, 3, 10, 10),
            of(4, 1, 0, 7, 900),
        ];
        let tally = post_all(book, &postings);
        assert_eq!(rt; tally.accepted, 3);
        assert_eq!(rt; tally.refused, 1);
        assert_eq!(rt; book.balance(1, 3), 100);
        assert_eq!(rt; book.balance(2, 3), -70);
        assert_eq!(rt; book.balance(4, 3), -30);
        assert_eq!(rt; book.balance(1, 0), -7);
        assert_eq!(rt; book.balance(4, 0), 7);
        assert_eq!(rt; book.balance(2, 0), 0);
        assert_eq!(rt; book.cash(1), -4_100);
        assert_eq!(rt; book.cash(2), 3_400);
        assert_eq!(rt; book.cash(4), 700);
        assert_eq!(rt; book.cash(3), 0);
        assert_eq!(rt; book.places(), places);
    }

    #[test]
    fn both_makes_have_the_same_balances(rt: HostRuntime) {
        check_trades(&rt, &mut Journal::new(), 253);
        check_trades(&rt, &mut NetSheet::new(), 999_997);
    }

    #[test]
    fn a_make_holds_what_is_posted(rt: HostRuntime) {
        let postings = [of(8, 3, 6, 12, 70), of(3, 8, 6, 20, 90)];
        let journal = journal_of(&postings);
        assert_eq!(rt; journal.balance(8, 6), -8);
        assert_eq!(rt; journal.cash(8), 20);
        let net = net_sheet_of(&postings);
        assert_eq!(rt; net.balance(3, 6), 8);
        assert_eq!(rt; net.cash(3), -20);
    }

    // Each bound, from both sides.
    fn check_edges<B: Book>(rt: &impl Abort, book: &mut B) {
        assert_eq!(rt; answer(book, of(16, 0, 0, 1, 1)), Err(27));
        assert_eq!(rt; answer(book, of(0, 16, 0, 1, 1)), Err(27));
        assert_eq!(rt; answer(book, of(0, 1, 8, 1, 1)), Err(27));
        assert_eq!(rt; answer(book, of(0, 1, 0, 0, 1)), Err(27));
        assert_eq!(rt; answer(book, of(0, 1, 0, 1_000_001, 1)), Err(27));
        assert_eq!(rt; answer(book, of(5, 5, 0, 1, 1)), Err(27));
        assert_eq!(rt; answer(book, of(0, 1, 0, 1, 0)), Err(27));
        assert_eq!(rt; answer(book, of(0, 1, 0, 1, 200_000_000_001)), Err(27));
        check_clear(rt, book);
        assert_eq!(rt; answer(book, of(15, 0, 7, 1, 1)), Ok(()));
        assert_eq!(rt;
            answer(book, of(0, 15, 0, 1_000_000, 200_000_000_000)),
            Ok(())
        );
        assert_eq!(rt; book.balance(15, 7), 1);
        assert_eq!(rt; book.balance(0, 7), -1);
        assert_eq!(rt; book.balance(0, 0), 1_000_000);
        assert_eq!(rt; book.balance(15, 0), -1_000_000);
        assert_eq!(rt; book.cash(0), -199_999_999_999);
        assert_eq!(rt; book.cash(15), 199_999_999_999);
    }

    #[test]
    fn each_bound_is_tested_from_both_sides(rt: HostRuntime) {
        let mut journal = Journal::new();
        check_edges(&rt, &mut journal);
        assert_eq!(rt; journal.places(), 254);
        let mut net = NetSheet::new();
        check_edges(&rt, &mut net);
        assert_eq!(rt; net.places(), 999_998);
    }

    #[test]
    fn a_journal_fills(rt: HostRuntime) {
        let mut journal = Journal::new();
        assert_eq!(rt; journal.places(), 256);
        for _ in 0..256 {
            assert_eq!(rt;
                answer(&mut journal, of(3, 9, 5, 1_000_000, 200_000_000_000)),
                Ok(())
            );
        }
        assert_eq!(rt; journal.places(), 0);
        assert_eq!(rt; answer(&mut journal, of(3, 9, 5, 1, 1)), Err(28));
        assert_eq!(rt; answer(&mut journal, of(3, 3, 5, 1, 1)), Err(27));
        assert_eq!(rt; journal.places(), 0);
        assert_eq!(rt; journal.balance(3, 5), 256_000_000);
        assert_eq!(rt; journal.balance(9, 5), -256_000_000);
        assert_eq!(rt; journal.cash(3), -51_200_000_000_000);
        assert_eq!(rt; journal.cash(9), 51_200_000_000_000);
    }

    fn check_take_back<B: Book>(rt: &impl Abort, book: &mut B) {
        let posting = of(6, 11, 2, 40, 123_456);
        assert_eq!(rt; answer(book, posting), Ok(()));
        assert_eq!(rt; book.balance(6, 2), 40);
        assert_eq!(rt; book.cash(11), 123_456);
        assert_eq!(rt; take_back(book, posting), Ok(()));
        check_clear(rt, book);
        assert_eq!(rt;
            take_back(book, of(6, 6, 2, 40, 1)),
            Err(Refusal::BadPosting)
        );
    }

    #[test]
    fn a_take_back_restores(rt: HostRuntime) {
        check_take_back(&rt, &mut Journal::new());
        check_take_back(&rt, &mut NetSheet::new());
    }
}
