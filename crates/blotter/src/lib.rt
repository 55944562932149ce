//! The text side of `obligations`: what a line of its input tells, and the lines that it prints.
#![tactic(auto)]

mod entry;
mod reading;
mod shown;

pub use entry::{Entry, Field, Flaw};
pub use reading::read;
pub use shown::{CashOwed, LotsOwed, Numbered, Passed};
