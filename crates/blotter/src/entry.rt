//! What a line of the input tells, and what may be wrong with it.
ghost use Rattle.std.specs.Prelude.{◌≡◌, Some};
ghost use Rattle.blotter.specs.declared.entry.Flaw.TheVariants.{Unknown, Trade};
ghost use Rattle.blotter.specs.Printed.{called};

use std::fmt;
use thiserror::Error;
use trades::{Trade, UnknownMarket};

#[derive(Clone, Copy, PartialEq, Eq, Debug)]
pub enum Entry {
    Trade(Trade),
    Limit {
        granter: u8,
        counterparty: u8,
        pesos: u64,
    },
    Block {
        house: u8,
        other: u8,
        on: bool,
    },
}

// A word of a line, by what it stands for.
#[derive(Clone, Copy, PartialEq, Eq, Debug)]
pub enum Field {
    Buyer,
    Seller,
    Paper,
    Lots,
    Quote,
    Days,
    Granter,
    Counterparty,
    Pesos,
    House,
    Other,
    Switch,
}

// By hand, since what a derive prints has no contract.
impl fmt::Display for Field {
    ghost output = { λ field. Some (called field) };

    fn fmt<W: fmt::Write>(&self, f: &mut fmt::Formatter<W>) -> fmt::Result {
        f.write_str(match self {
            Field::Buyer => "buyer",
            Field::Seller => "seller",
            Field::Paper => "paper",
            Field::Lots => "lots",
            Field::Quote => "quote",
            Field::Days => "days",
            Field::Granter => "granter",
            Field::Counterparty => "counterparty",
            Field::Pesos => "pesos",
            Field::House => "house",
            Field::Other => "the other house",
            Field::Switch => "on or off",
        })
    }
}

#[derive(Clone, Copy, PartialEq, Eq, Debug, Error)]
pub enum Flaw {
    // The first word names no market and no call.
    #[error("the first word is none of price, rate, interbank, limit, block")]
    Unknown,
    #[error("{0} is missing")]
    Missing(Field),
    #[error("{0} is not a number of 1 to 18 digits")]
    NoNumber(Field),
    #[error("{0} is not a house from 0 to 15")]
    NoHouse(Field),
    #[error("neither on nor off")]
    NoSwitch,
    #[error("a word too many")]
    Surplus,
    #[error(transparent)]
    Trade(trades::Flaw),
}

// The conversions are by hand, since a derived one has no contract.
impl From<UnknownMarket> for Flaw {
    ghost from_gives = { λ _ flaw. flaw ≡ Unknown };

    fn from(_: UnknownMarket) -> Flaw {
        Flaw::Unknown
    }
}

impl From<trades::Flaw> for Flaw {
    ghost from_gives = { λ of_trade flaw. flaw ≡ Trade of_trade };

    fn from(flaw: trades::Flaw) -> Flaw {
        Flaw::Trade(flaw)
    }
}
