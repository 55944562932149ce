//! A trade: the checks on its figures, its value in its market, and how it is printed.
#![tactic(auto)]

mod figures;
mod shown;
mod trade;

pub use trade::{Figures, Flaw, Kind, Trade, UnknownMarket};
