//! A market: which quotes it takes, how it ranks them, what they are worth, and who pledges a line.
#![tactic(auto)]

ghost use Rattle.std.specs.Prelude.{◌≡◌};
ghost use Rattle.market.specs.Meaning.{Meaning, Ranged, Dearer};

mod interbank;
mod make;
mod price;
mod rate;
mod terms;
mod units;

pub use interbank::Interbank;
pub use price::Price;
pub use rate::Rate;
pub use terms::Terms;

pub trait Market {
    ghost meaning: { Self → Meaning };

    fn lowest(&self) -> u32
        ensures { result ≡ (meaning self.now).lowest };

    fn highest(&self) -> u32
        ensures { result ≡ (meaning self.now).highest };

    // The quote's rank: a buy and a sell cross when the buy's is at least the sell's. 0 for a quote that is not the market's, and no Option: so the market's law holds of any two quotes.
    fn rank(&self, quote: u32) -> u32
        ensures { result ≡ (meaning self.now).rank quote };

    // Pesos for the lots at the quote, for so many days; 0 where one of the three is out of range, and no Option, by the same law.
    fn value(&self, terms: Terms) -> u64
        ensures { result ≡ (meaning self.now).value terms.lots terms.quote terms.days };

    // Whether the buyer pledges its line on the seller, and whether the seller does its own on the buyer.
    fn pledges(&self) -> (bool, bool)
        ensures { result ≡ (meaning self.now).pledges };

    ghost ranged: { (m : Self) → Ranged (meaning m) };

    ghost dearer: { (m : Self) → Dearer (meaning m) };
}
