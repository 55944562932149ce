//! What a session is asked, and what it answers.
use super::offers::Side;

// For how many seconds a pair is shown to everybody before it closes.
#[derive(Clone, Copy)]
pub enum ExposureTime {
    Zero,
    Ten,
    Twenty,
}

#[derive(Clone, Copy)]
pub struct Settings {
    pub number: u32,
    pub exposure: ExposureTime,
}

#[derive(Clone, Copy)]
pub struct Entry {
    pub house: u8,
    pub side: Side,
    pub paper: u8,
    pub lots: u32,
    pub quote: u32,
    // Seconds after midnight; none: until withdrawn.
    pub lapse: Option<u32>,
}

// A case: the number of the session that gave it out, and the close that it is about.
#[derive(Clone, Copy)]
pub struct CaseName {
    pub session: u32,
    pub close: u32,
}

#[derive(Clone, Copy)]
pub enum Call {
    Term {
        paper: u8,
        days: u32,
    },
    Limit {
        granter: u8,
        counterparty: u8,
        pesos: u64,
    },
    Block {
        house: u8,
        other: u8,
        on: bool,
    },
    Enter(Entry),
    Withdraw {
        house: u8,
        offer: u32,
    },
    Tick {
        clock: u32,
    },
    Complain {
        house: u8,
        close: u32,
        jury: [u8; 5],
    },
    Vote {
        case: CaseName,
        juror: u8,
        yes: bool,
    },
    Decide {
        case: CaseName,
    },
    Release {
        house: u8,
        close: u32,
    },
    Settle {
        close: u32,
    },
}

#[derive(Clone, Copy)]
pub enum Answer {
    Done,
    // The offer's number, and the lots that closed at once.
    Entered { offer: u32, closed: u32 },
    Withdrawn { lots: u32 },
    // Closes, voids and lapses: a tuple, as a tick answers them.
    Ticked((u32, u32, u32)),
    Opened(CaseName),
    // Whether the close was annulled, and the votes for and against that.
    Decided { annulled: bool, yes: u32, no: u32 },
}
