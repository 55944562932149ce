ghost use Rattle.std.specs.Prelude.{◌≡◌, ◌+◌, ◌<◌, ◌≤◌, true, length, pos, neg_ℤ, ◌≤ℤ◌};
ghost use Rattle.std.specs.List.{AllPass};
ghost use Rattle.book.specs.Sheet.{Clear, Posted, Posts, TakesPlace, acceptable, moved};
ghost use Rattle.journal.specs.Meaning.{account_added, added_up, stored, journal_sheet};
ghost use Rattle.journal.specs.Laws.{zero_outside, places_fit};

use super::{Account, Journal, PLACES};
use arrayvec::ArrayVec;
use book::{Book, MOST_PESOS, Posting, Refusal};

// What an amount that goes from one house to another adds at a house. `as`, since the `requires` proves that it loses nothing.
fn moved(to: u8, from: u8, amount: u64, house: u8) -> i64
    requires { amount ≤ MOST_PESOS }
    ensures value { result ≡ moved to from amount house }
    ensures least { neg_ℤ (pos amount) ≤ℤ result }
    ensures most { result ≤ℤ pos amount }
{
    let came = if house == to { amount as i64 } else { 0 };
    let gone = if house == from { amount as i64 } else { 0 };
    came - gone
}

// What a posting adds to an account.
#[tactic(auto, unfolding(book::specs::Sheet::acceptable))]
fn added(account: Account, posting: Posting) -> i64
    requires { acceptable posting ≡ true }
    ensures value { result ≡ account_added account posting }
    ensures least { neg_ℤ (pos MOST_PESOS) ≤ℤ result }
    ensures most { result ≤ℤ pos MOST_PESOS }
{
    match account {
        Account::Lots(house, paper) => {
            if paper != posting.paper {
                return 0;
            }
            moved(
                posting.buyer,
                posting.seller,
                u64::from(posting.lots),
                house,
            )
        }
        Account::Cash(house) => moved(posting.seller, posting.buyer, posting.pesos, house),
    }
}

// What postings add up to in an account. A `for`, since a chain that sums signed numbers owes the same bound, and for every run of it.
fn add_up(postings: &[Posting], account: Account) -> i64
    requires few { length postings.now ≤ PLACES }
    requires sound { AllPass acceptable postings.now }
    ensures { result ≡ added_up (account_added account) postings.now }
{
    let mut sum: i64 = 0;
    for posting in postings {
        sum += added(account, *posting);
    }
    sum
}

impl Journal {
    // Every balance zero, and 256 places.
    pub fn new() -> Journal
        ensures clear { Clear (journal_sheet result) }
        ensures places { (journal_sheet result).places ≡ 256 }
    {
        Journal {
            postings: ArrayVec::new(),
        }
    }
}

impl Book for Journal {
    ghost sheet = { journal_sheet };

    ghost outside = { zero_outside };

    ghost counted = { places_fit };

    fn post(&mut self, posting: Posting) -> Result<(), Refusal>
        ensures posts { Posts (journal_sheet self.old) posting result (journal_sheet self.new) }
        ensures place { TakesPlace (journal_sheet self.old).places result (journal_sheet self.new).places }
    {
        let accepted = posting.accept(self.places())?;
        self.postings.push(accepted.posting);
        Ok(())
    }

    fn balance(&self, house: u8, paper: u8) -> i64 {
        add_up(&self.postings, Account::Lots(house, paper))
    }

    fn cash(&self, house: u8) -> i64 {
        add_up(&self.postings, Account::Cash(house))
    }

    fn places(&self) -> u32 {
        // `as`, since the 256 places are proved to fit.
        self.postings.remaining_capacity() as u32
    }
}
