ghost use Rattle.std.specs.Prelude.{◌≡◌, ◌+◌, ◌≤◌, length, Ok};
ghost use Rattle.book.specs.Sheet.{Sheet, Clear, Posted, Posts, SameBalances, exchanged};
ghost use Rattle.book.specs.Laws.{Run, Balanced, AlwaysBalanced, TakenBack};

use super::Book;
use super::posting::{Posting, Refusal};

// How many of the postings were accepted, and how many refused.
#[derive(Clone, Copy, PartialEq, Eq, Debug)]
pub struct Tally {
    pub accepted: usize,
    pub refused: usize,
}

// Posts each posting in turn, passing over a refused one, and counts the accepted ones. A `for`: a filter that posts leaves open what it counted.
fn run_all<B: Book>(book: &mut B, postings: &[Posting]) -> usize
    ensures run { Run (B.Book.sheet book.old) postings.now result (B.Book.sheet book.new) }
    ensures balanced { Clear (B.Book.sheet book.old) → Balanced (B.Book.sheet book.new) }
    ensures always { AlwaysBalanced }
    ensures few { result ≤ length postings.now }
{
    let mut accepted: usize = 0;
    for posting in postings {
        if book.post(*posting).is_ok() {
            accepted += 1;
        }
    }
    accepted
}

// Posts each posting in turn, passing over a refused one.
pub fn post_all<B: Book>(book: &mut B, postings: &[Posting]) -> Tally
    ensures run { Run (B.Book.sheet book.old) postings.now result.accepted (B.Book.sheet book.new) }
    ensures all { result.accepted + result.refused ≡ length postings.now }
    ensures balanced { Clear (B.Book.sheet book.old) → Balanced (B.Book.sheet book.new) }
    ensures always { AlwaysBalanced }
{
    let accepted = run_all(book, postings);
    Tally {
        accepted,
        refused: postings.len() - accepted,
    }
}

// Takes a posting back: posts it with buyer and seller exchanged. Where it was the last to be posted, every balance is as before it.
pub fn take_back<B: Book>(book: &mut B, posting: Posting) -> Result<(), Refusal>
    ensures posts { Posts (B.Book.sheet book.old) (exchanged posting) result (B.Book.sheet book.new) }
    ensures restored { result ≡ Ok tt → (before : Sheet) → Posted before posting (B.Book.sheet book.old) → SameBalances before (B.Book.sheet book.new) }
    ensures always { TakenBack }
{
    book.post(posting.exchanged())
}
