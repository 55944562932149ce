//! The terms in which two of the markets reckon.

// Pesos of nominal to a lot.
pub(crate) const LOT: u64 = 100_000;

// Basis points × days for which the interest is the principal itself: 100 per cent for 365 days.
pub(crate) const WHOLE: u64 = 3_650_000;
