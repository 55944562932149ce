ghost use Rattle.std.specs.Prelude.{◌≡◌, ℕ, ◌+◌, ◌*◌, ◌^◌, ◌<◌, ◌≤◌, length, pos, ◌+ℤ◌, slice_index_or};
ghost use Rattle.book.specs.Sheet.{Clear, Posted, Posts, TakesPlace, moved};
ghost use Rattle.net_sheet.specs.Kept.{Within};
ghost use Rattle.net_sheet.specs.Meaning.{net_sheet};
ghost use Rattle.net_sheet.specs.Laws.{zero_outside, places_fit};

use super::{NetSheet, PLACES};
use book::{Accepted, Book, HOUSES, MOST_PESOS, PAPERS, Posting, Refusal};

// An amount goes from one figure to another.
fn transfer(figures: &mut [i64], to: usize, from: usize, amount: u64)
    requires to { to < length figures.old }
    requires from { from < length figures.old }
    requires small { amount ≤ MOST_PESOS }
    requires fits { Within (2 ^ 60) figures.old }
    ensures { (k : ℕ) → slice_index_or figures.new k (pos 0) ≡ slice_index_or figures.old k (pos 0) +ℤ moved to from amount k }
{
    // `as`, since the `requires` proves that it loses nothing.
    let amount = amount as i64;
    figures[from] -= amount;
    figures[to] += amount;
}

// Where the figure of a house and a paper stands.
fn figure_of(house: u8, paper: u8) -> usize
    ensures { result ≡ house * 8 + paper }
{
    usize::from(house) * usize::from(PAPERS) + usize::from(paper)
}

// The places that are left when a posting has taken one.
fn place_taken(places: u32) -> u32
    requires { 0 < places }
    ensures { result + 1 ≡ places }
{
    places - 1
}

impl NetSheet {
    // Every balance zero, and a million places.
    pub fn new() -> NetSheet
        ensures clear { Clear (net_sheet result) }
        ensures places { (net_sheet result).places ≡ 1_000_000 }
    {
        NetSheet::with_places(PLACES)
    }

    // Every balance zero, and so many places.
    fn with_places(places: u32) -> NetSheet
        requires { places ≤ PLACES }
        ensures clear { Clear (net_sheet result) }
        ensures places { (net_sheet result).places ≡ places }
    {
        NetSheet {
            lots: [0; 128],
            cash: [0; 16],
            places,
        }
    }

    // Adds a posting that no rule refuses.
    #[tactic(auto, unfolding(book::specs::Sheet::acceptable))]
    fn enter(&mut self, accepted: Accepted)
        requires room { 0 < (net_sheet self.old).places }
        ensures posted { Posted (net_sheet self.old) accepted.posting (net_sheet self.new) }
        ensures place { (net_sheet self.new).places + 1 ≡ (net_sheet self.old).places }
    {
        let posting = accepted.posting;
        // `as` and no `from`, tried: the proof of the figures' bounds no longer closed.
        let bought = figure_of(posting.buyer, posting.paper);
        let sold = figure_of(posting.seller, posting.paper);
        transfer(&mut self.lots, bought, sold, posting.lots as u64);
        transfer(
            &mut self.cash,
            posting.seller as usize,
            posting.buyer as usize,
            posting.pesos,
        );
        self.places = place_taken(self.places);
    }
}

impl Book for NetSheet {
    ghost sheet = { net_sheet };

    ghost outside = { zero_outside };

    ghost counted = { places_fit };

    fn post(&mut self, posting: Posting) -> Result<(), Refusal>
        ensures posts { Posts (net_sheet self.old) posting result (net_sheet self.new) }
        ensures place { TakesPlace (net_sheet self.old).places result (net_sheet self.new).places }
    {
        let accepted = posting.accept(self.places)?;
        self.enter(accepted);
        Ok(())
    }

    fn balance(&self, house: u8, paper: u8) -> i64 {
        if house >= HOUSES || paper >= PAPERS {
            return 0;
        }
        self.lots[figure_of(house, paper)]
    }

    fn cash(&self, house: u8) -> i64 {
        if house >= HOUSES {
            return 0;
        }
        self.cash[usize::from(house)]
    }

    fn places(&self) -> u32 {
        self.places
    }
}
