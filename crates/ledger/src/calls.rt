ghost use Rattle.std.specs.Prelude.{◌≡◌, None};
ghost use Rattle.lines.specs.Rules.{LimitSet, BlockSet};
ghost use Rattle.ledger.specs.Takes.{posting, deal, NowRule, Takes};

use super::not_posted::NotPosted;
use book::{Book, Posting};
use lines::{Deal, Lines};
use trades::Trade;

// No `From`: it could stand in `trades`, `book` or `lines` alone, and none of them knows the others.
fn posting(trade: Trade) -> Posting
    ensures { result ≡ posting trade }
{
    Posting {
        buyer: trade.buyer,
        seller: trade.seller,
        paper: trade.paper,
        lots: trade.lots,
        pesos: trade.value(),
    }
}

fn deal(trade: Trade) -> Deal
    ensures { result ≡ deal trade }
{
    Deal {
        pledges: trade.kind.pledges(),
        buyer: trade.buyer,
        seller: trade.seller,
        value: trade.value(),
    }
}

#[derive(Drop)]
pub struct Ledger<B: Book> {
    // None until a limit or a block is first set: until then every trade is posted.
    lines: Option<Lines>,
    book: B,
}

impl<B: Book> Ledger<B> {
    // No lines that rule, over a book.
    pub fn new(book: B) -> Ledger<B>
        ensures lines { result.lines ≡ None }
        ensures book { result.book ≡ book }
    {
        Ledger { lines: None, book }
    }

    // Sets a line's limit. From now on the lines rule.
    pub fn set_limit(
        &mut self,
        granter: u8,
        counterparty: u8,
        pesos: u64,
    ) -> Result<(), lines::Refusal>
        ensures lines { NowRule (λ old new. LimitSet old granter counterparty pesos result new) self.old.lines self.new.lines }
        ensures book { self.new.book ≡ self.old.book }
    {
        self.lines
            .get_or_insert_with(Lines::new)
            .set_limit(granter, counterparty, pesos)
    }

    // Sets or lifts a house's block on another. From now on the lines rule.
    pub fn set_block(&mut self, house: u8, other: u8, on: bool) -> Result<(), lines::Refusal>
        ensures lines { NowRule (λ old new. BlockSet old house other on result new) self.old.lines self.new.lines }
        ensures book { self.new.book ≡ self.old.book }
    {
        self.lines
            .get_or_insert_with(Lines::new)
            .set_block(house, other, on)
    }

    // Posts a trade and uses its lines, where lines and book allow it, and answers its value; else changes nothing.
    pub fn take(&mut self, trade: Trade) -> Result<u64, NotPosted>
        ensures { Takes self.old.lines (B.Book.sheet self.old.book) trade result self.new.lines (B.Book.sheet self.new.book) }
    {
        let deal = deal(trade);
        if let Some(lines) = &self.lines {
            lines.may_trade(deal)?;
        }
        self.book.post(posting(trade))?;
        if let Some(lines) = &mut self.lines {
            match lines.use_lines(deal) {
                Ok(()) => {}
                Err(_) => unreachable(),
            }
        }
        Ok(deal.value)
    }

    // What a house has to receive of a paper, or, below 0, to deliver.
    pub fn balance(&self, house: u8, paper: u8) -> i64
        ensures { result ≡ (B.Book.sheet self.now.book).lots house paper }
    {
        self.book.balance(house, paper)
    }

    // The pesos that a house has to receive, or, below 0, to pay.
    pub fn cash(&self, house: u8) -> i64
        ensures { result ≡ (B.Book.sheet self.now.book).cash house }
    {
        self.book.cash(house)
    }
}
