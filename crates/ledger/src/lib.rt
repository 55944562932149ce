//! A day's ledger: lines, once any is set, say which trades are posted to the book.
#![tactic(auto)]

mod calls;
mod not_posted;

pub use calls::Ledger;
pub use not_posted::NotPosted;
