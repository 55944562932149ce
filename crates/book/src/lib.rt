//! A book: the lots of each paper and the cash of each house, changed by postings alone.
#![tactic(auto)]

ghost use Rattle.std.specs.Prelude.{◌≡◌, ◌^◌, ◌<◌};
ghost use Rattle.book.specs.Sheet.{Sheet, ZeroOutside, Posts};

mod posting;
mod rules;
mod runs;

pub use posting::{Posting, Refusal};
pub use rules::{Accepted, HOUSES, MOST_LOTS, MOST_PESOS, PAPERS};
pub use runs::{Tally, post_all, take_back};

pub trait Book {
    // All that the book means.
    ghost sheet: { Self → Sheet };

    // Moves the lots from the seller to the buyer and the pesos from the buyer to the seller, or says why not and alters nothing.
    fn post(&mut self, posting: Posting) -> Result<(), Refusal>
        ensures posts { Posts (sheet self.old) posting result (sheet self.new) };

    // The lots that a house has of a paper: 0 for what is no house or no paper.
    fn balance(&self, house: u8, paper: u8) -> i64
        ensures { result ≡ (sheet self.now).lots house paper };

    // The pesos that a house has: 0 for what is no house.
    fn cash(&self, house: u8) -> i64
        ensures { result ≡ (sheet self.now).cash house };

    // How many postings are still taken.
    fn places(&self) -> u32
        ensures { result ≡ (sheet self.now).places };

    // The balances of what is no house or no paper are zero.
    ghost outside: { (b : Self) → ZeroOutside (sheet b) };

    // The places fit the answer of `places`.
    ghost counted: { (b : Self) → (sheet b).places < 2 ^ 32 };
}
