//! The rules of a session: its vocabulary, and in `specs/` the rules themselves.
#![tactic(auto)]

mod calls;
mod closes;
mod laws;
mod offers;
mod refusal;
mod told;

pub use calls::{Answer, Call, CaseName, Entry, ExposureTime, Settings};
pub use closes::{Close, Hearing, Stage};
pub use laws::{
    closes_are_fair, memory_does_not_matter, refused_call_changes_nothing, runs_are_fair,
    who_is_met, worked_cases_hold,
};
pub use offers::{Exposure, Offer, Side};
pub use refusal::Refusal;
