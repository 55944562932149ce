//! What is to be valued.

// So many lots at a quote, for so many days.
#[derive(Clone, Copy, PartialEq, Eq, Debug)]
pub struct Terms {
    pub lots: u32,
    pub quote: u32,
    pub days: u32,
}
