//! A book that keeps one figure for each balance.
#![tactic(auto)]

ghost use Rattle.std.specs.Prelude.{◌≡◌, ◌-◌, ◌*◌, ◌≤◌, length};
ghost use Rattle.net_sheet.specs.Kept.{Within};
ghost use Rattle.net_sheet.specs.declared.TheConstants.{PLACES};
ghost use Rattle.book.specs.declared.rules.TheConstants.{MOST_LOTS, MOST_PESOS};

mod calls;

// How many postings a net sheet takes.
const PLACES: u32 = 1_000_000;

// One figure for each balance. What each of the postings that it takes may move keeps the figures small.
// Two plain arrays, and not one of a struct for each house: so one `transfer` serves lots and cash.
// No `impl Model`: the laws of `Book` need the invariant, and a view is not given it.
#[derive(Drop)]
pub struct NetSheet {
    lots: [i64; 128],
    cash: [i64; 16],
    places: u32,
    ghost wide: { length lots ≡ 128 },
    ghost long: { length cash ≡ 16 },
    ghost few: { places ≤ PLACES },
    ghost lots_fit: { Within ((PLACES - places) * MOST_LOTS) lots },
    ghost cash_fit: { Within ((PLACES - places) * MOST_PESOS) cash },
}
