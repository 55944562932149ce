//! Credit lines between houses, and blocks of one house on another: the only place that says whether two houses may trade, and why not.
#![tactic(auto)]

pub mod table;

pub use table::{Deal, Fault, LessUsed, Line, Lines, Refusal};
