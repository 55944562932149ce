//! Why a call is refused.
use lines::Fault;

#[derive(Clone, Copy, PartialEq, Eq, Debug)]
pub enum Refusal {
    NoHouse,
    OneHouse,
    NoPaper,
    BadLots,
    BadQuote,
    BadLapse,
    BadClock,
    OutOfHours,
    LimitOrDays,
    TermFixed,
    NoOffer,
    NoClose,
    PaperExposed,
    NotBetter,
    MayNotTrade(Fault),
    BoardFull,
    TapeFull,
    NoRoom,
    NoNumber,
    BadJury,
    NoParty,
    WrongStage,
    NoCase,
    NoVote,
    Undecided,
    PageShort,
    BadPosting,
    NoPlace,
}
