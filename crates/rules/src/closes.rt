//! Closes and their stages.

// A close under vote: five jurors, a mask of the houses that voted yes and one of those that voted no, and when the vote ends.
#[derive(Clone, Copy)]
pub struct Hearing {
    pub jury: [u8; 5],
    pub yes: u16,
    pub no: u16,
    pub end: u32,
}

#[derive(Clone, Copy)]
pub enum Stage {
    // `heard` once a vote has let it stand: it cannot be complained of again.
    Live { heard: bool },
    UnderVote(Hearing),
    // Which party has released its line.
    Annulled { buyer: bool, seller: bool },
    Settled,
}

#[derive(Clone, Copy)]
pub struct Close {
    pub buyer: u8,
    pub seller: u8,
    // The numbers of the two offers.
    pub buy: u32,
    pub sell: u32,
    pub paper: u8,
    pub lots: u32,
    pub price: u32,
    // The two offers' own quotes.
    pub bid: u32,
    pub ask: u32,
    pub value: u64,
    pub stage: Stage,
}
