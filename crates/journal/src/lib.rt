//! A book that keeps every posting, and adds them up when asked.
#![tactic(auto)]

ghost use Rattle.std.specs.Prelude.{◌≤◌, length};
ghost use Rattle.std.specs.List.{AllPass};
ghost use Rattle.book.specs.Sheet.{acceptable};
ghost use Rattle.journal.specs.declared.TheConstants.{PLACES};

use arrayvec::ArrayVec;
use book::Posting;

mod calls;

// How many postings a journal takes.
const PLACES: usize = 256;

// Every posting, in order: a balance is what they add up to.
// The elements are not `Accepted`: an array vector fills its blanks with a default, and no accepted posting is a natural one.
// No `impl Model`: the laws of `Book` need the invariant, and a view is not given it.
#[derive(Drop)]
pub struct Journal {
    postings: ArrayVec<Posting, PLACES>,
    ghost few: { length postings.items ≤ PLACES },
    ghost sound: { AllPass acceptable postings.items },
}

// One balance of the book: a house's lots of a paper, or its cash.
// An enum and no closure: `add_up` would have to require of one what it answers for each acceptable posting, and within which bounds.
#[derive(Clone, Copy)]
enum Account {
    Lots(u8, u8),
    Cash(u8),
}
