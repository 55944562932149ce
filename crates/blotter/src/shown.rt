//! The lines that are printed, byte for byte: by hand, since what a derive prints has no contract.
ghost use Rattle.std.specs.Prelude.{Some};
ghost use Rattle.blotter.specs.Printed.{trade_line, passed_line, lots_line, cash_line};

use lines::Fault;
use std::fmt;
use trades::Trade;

// A trade and its number in the input, from 1.
#[derive(Clone, Copy)]
pub struct Numbered {
    pub number: u64,
    pub trade: Trade,
}

impl fmt::Display for Numbered {
    ghost output = { λ n. Some (trade_line n.number n.trade) };

    fn fmt<W: fmt::Write>(&self, f: &mut fmt::Formatter<W>) -> fmt::Result {
        let Numbered { number, trade } = *self;
        let value = trade.value();
        write!(f, "trade {number}: {trade} value {value}")
    }
}

// A trade that is passed over.
#[derive(Clone, Copy)]
pub struct Passed {
    pub numbered: Numbered,
    pub fault: Fault,
}

impl fmt::Display for Passed {
    ghost output = { λ p. Some (passed_line p.numbered.number p.numbered.trade p.fault) };

    fn fmt<W: fmt::Write>(&self, f: &mut fmt::Formatter<W>) -> fmt::Result {
        let Passed { numbered, fault } = *self;
        write!(f, "{numbered} passed over: {fault}")
    }
}

// Lots that a house has to receive, or, below 0, to deliver.
#[derive(Clone, Copy)]
pub struct LotsOwed {
    pub house: u8,
    pub paper: u8,
    pub lots: i64,
}

impl fmt::Display for LotsOwed {
    ghost output = { λ o. Some (lots_line o.house o.paper o.lots) };

    fn fmt<W: fmt::Write>(&self, f: &mut fmt::Formatter<W>) -> fmt::Result {
        let LotsOwed { house, paper, lots } = *self;
        write!(f, "house {house} paper {paper} lots {lots}")
    }
}

// Pesos that a house has to receive, or, below 0, to pay.
#[derive(Clone, Copy)]
pub struct CashOwed {
    pub house: u8,
    pub pesos: i64,
}

impl fmt::Display for CashOwed {
    ghost output = { λ o. Some (cash_line o.house o.pesos) };

    fn fmt<W: fmt::Write>(&self, f: &mut fmt::Formatter<W>) -> fmt::Result {
        let CashOwed { house, pesos } = *self;
        write!(f, "house {house} cash {pesos}")
    }
}
