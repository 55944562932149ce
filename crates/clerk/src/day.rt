//! A day's lines of input, over any book.
use super::stop::Stop;
use blotter::{CashOwed, Entry, LotsOwed, Numbered, Passed};
use book::{Book, HOUSES, PAPERS};
use ledger::{Ledger, NotPosted};
use std::io::Write;
use trades::Trade;
use words::Lines;

#[derive(Drop)]
pub(crate) struct Day<'a, B: Book, W> {
    ledger: Ledger<B>,
    // The number of the next trade.
    number: u64,
    out: &'a mut W,
}

impl<'a, B: Book, W: Write> Day<'a, B, W> {
    // A day that begins with nothing set and nothing posted.
    pub(crate) fn new(book: B, out: &'a mut W) -> Day<'a, B, W> {
        Day {
            ledger: Ledger::new(book),
            number: 1,
            out,
        }
    }

    // `at` is the number of the trade's line.
    fn take_trade(&mut self, at: usize, trade: Trade) -> Result<(), Stop> {
        let numbered = Numbered {
            number: self.number,
            trade,
        };
        match self.ledger.take(trade) {
            Ok(_) => writeln!(self.out, "{numbered}")?,
            Err(NotPosted::PassedOver(fault)) => {
                let passed = Passed { numbered, fault };
                writeln!(self.out, "{passed}")?;
            }
            Err(NotPosted::Refused(refusal)) => return Err(Stop::NotPosted(at, refusal)),
        }
        self.number = self.number.saturating_add(1);
        Ok(())
    }

    fn take_line(&mut self, at: usize, line: &[u8]) -> Result<(), Stop> {
        let entry = blotter::read(line).map_err(|flaw| Stop::Flawed(at, flaw))?;
        let set = match entry {
            None => Ok(()),
            Some(Entry::Trade(trade)) => return self.take_trade(at, trade),
            Some(
                Entry::Limit {
                    granter,
                    counterparty,
                    pesos,
                },
            ) => self.ledger.set_limit(granter, counterparty, pesos),
            Some(Entry::Block { house, other, on }) => self.ledger.set_block(house, other, on),
        };
        set.map_err(|refusal| Stop::NotSet(at, refusal))
    }

    // Every line in turn, up to the first that ends the run.
    pub(crate) fn take_lines(&mut self, text: &[u8]) -> Result<(), Stop> {
        for (before, line) in Lines::new(text).enumerate() {
            self.take_line(before.saturating_add(1), line)?;
        }
        Ok(())
    }

    // What each house has to receive or to deliver, balances of zero left out.
    pub(crate) fn print_owed(&mut self) -> Result<(), Stop> {
        for house in 0..HOUSES {
            for paper in 0..PAPERS {
                let lots = self.ledger.balance(house, paper);
                if lots != 0 {
                    let owed = LotsOwed { house, paper, lots };
                    writeln!(self.out, "{owed}")?;
                }
            }
            let pesos = self.ledger.cash(house);
            if pesos != 0 {
                let owed = CashOwed { house, pesos };
                writeln!(self.out, "{owed}")?;
            }
        }
        Ok(())
    }
}
