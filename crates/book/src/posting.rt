// What is posted, and why a posting is refused. The types stand alone, since the definitions of specs/ name them.

// Lots of a paper that a buyer has of a seller, and the pesos paid for them.
// `Default` is for the blanks of an array vector of postings.
#[derive(Clone, Copy, PartialEq, Eq, Debug, Default)]
pub struct Posting {
    pub buyer: u8,
    pub seller: u8,
    pub paper: u8,
    pub lots: u32,
    pub pesos: u64,
}

// Why a posting is refused, and the number that the refusal is known by.
#[derive(Clone, Copy, PartialEq, Eq, Debug)]
pub enum Refusal {
    BadPosting = 27,
    NoPlace = 28,
}
