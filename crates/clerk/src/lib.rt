//! The work of `obligations`: reads the input, keeps the ledger and prints.
#![tactic(auto)]

mod day;
mod program;
mod stop;

pub use program::run;
pub use stop::Stop;
