//! A trade as it is printed, byte for byte.
ghost use Rattle.std.specs.Prelude.{Some};
ghost use Rattle.trades.specs.Trades.{name, terms};

use super::trade::{Kind, Trade};
use std::fmt;

// By hand, since what a derive prints has no contract.
impl fmt::Display for Kind {
    ghost output = { λ k. Some (name k) };

    fn fmt<W: fmt::Write>(&self, f: &mut fmt::Formatter<W>) -> fmt::Result {
        f.write_str(self.name())
    }
}

impl fmt::Display for Trade {
    ghost output = { λ t. Some (terms t) };

    fn fmt<W: fmt::Write>(&self, f: &mut fmt::Formatter<W>) -> fmt::Result {
        let Trade {
            kind,
            buyer,
            seller,
            paper,
            lots,
            quote,
            days,
        } = *self;
        write!(
            f,
            "{kind} buyer {buyer} seller {seller} paper {paper} lots {lots} quote {quote} days {days}"
        )
    }
}
