//! Offers, and the pair of them that a paper shows.

#[derive(Clone, Copy, PartialEq, Eq)]
pub enum Side {
    Buy,
    Sell,
}

// A standing offer: the lots still wanted or offered, and when it lapses, if it does before it is withdrawn.
// A type beside `Entry`: what was asked for stays, and what stands has a number and grows less.
#[derive(Clone, Copy)]
pub struct Offer {
    pub number: u32,
    pub house: u8,
    pub side: Side,
    pub paper: u8,
    pub lots: u32,
    pub quote: u32,
    pub lapse: Option<u32>,
}

// A pair that is shown to everybody before it closes: the numbers of its offers, its price, and when it ends.
#[derive(Clone, Copy)]
pub struct Exposure {
    pub buy: u32,
    pub sell: u32,
    pub price: u32,
    pub end: u32,
}
