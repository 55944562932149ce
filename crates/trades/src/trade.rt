//! A trade, and what may be wrong with its figures.
use thiserror::Error;

#[derive(Clone, Copy, PartialEq, Eq, Debug)]
pub enum Kind {
    Price,
    Rate,
    Interbank,
}

// A word that names no market.
#[derive(Clone, Copy, PartialEq, Eq, Debug, Error)]
#[error("no market has this name")]
pub struct UnknownMarket;

#[derive(Clone, Copy, PartialEq, Eq, Debug)]
pub struct Trade {
    pub kind: Kind,
    pub buyer: u8,
    pub seller: u8,
    pub paper: u8,
    pub lots: u32,
    pub quote: u32,
    pub days: u32,
}

// The figures of a trade as they are written. A type beside `Trade`, whose figures have the types that markets and books take: a generic one would have a parameter for each.
#[derive(Clone, Copy)]
pub struct Figures {
    pub kind: Kind,
    pub buyer: u64,
    pub seller: u64,
    pub paper: u64,
    pub lots: u64,
    pub quote: u64,
    pub days: u64,
}

// The first figure that is out of range.
#[derive(Clone, Copy, PartialEq, Eq, Debug, Error)]
pub enum Flaw {
    #[error("buyer is not a house from 0 to 15")]
    NoBuyer,
    #[error("seller is not a house from 0 to 15")]
    NoSeller,
    #[error("buyer and seller are one house")]
    OneHouse,
    #[error("paper is not from 0 to 7")]
    NoPaper,
    #[error("lots are not from 1 to 1000000")]
    Lots,
    // The highest quote of the market.
    #[error("quote is not from 1 to {0}")]
    Quote(u32),
    #[error("days are not from 0 to 365")]
    Days,
}
