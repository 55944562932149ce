//! Why a run ends before its input does.
use blotter::Flaw;
use std::io;
use thiserror::Error;

#[derive(Debug, Drop, Error)]
pub enum Stop {
    #[error(transparent)]
    Io(#[from] io::Error),
    // A file that could not be read.
    #[error("{0}: {1}")]
    Unread(String, io::Error),
    // The second argument names no book.
    #[error("the book is neither journal nor net")]
    NoBook,
    // A line, counted from 1, and what is wrong with it.
    #[error("line {0}: {1}")]
    Flawed(usize, Flaw),
    // A line, and why the book refuses its trade.
    #[error("line {0}: refused with {number}: {why}", number = .1.number(), why = .1)]
    NotPosted(usize, book::Refusal),
    // A line, and why its limit or block is refused.
    #[error("line {0}: refused with {number}: {why}", number = .1.number(), why = .1)]
    NotSet(usize, lines::Refusal),
}
