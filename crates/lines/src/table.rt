ghost use Rattle.std.specs.Prelude.{◌^◌, ◌≤◌};

pub mod calls;
mod pair;
mod shown;

/// What a house, the granter, lets another owe it, in pesos, and how much of that is used.
#[derive(Clone, Copy, PartialEq, Eq, Debug)]
pub struct Line {
    pub limit: u64,
    pub used: u64,
    ghost within: { used ≤ limit },
    ghost capped: { limit ≤ 10 ^ 15 },
}

impl Line {
    pub const NEW: Line = Line { limit: 0, used: 0 };

    pub const CEILING: u64 = 1_000_000_000_000_000;
}

/// Two houses that are to trade: what it costs, and which side pledges its line on the other, the buyer first.
#[derive(Clone, Copy, PartialEq, Eq, Debug)]
pub struct Deal {
    pub pledges: (bool, bool),
    pub buyer: u8,
    pub seller: u8,
    pub value: u64,
}

/// Why two houses may not trade.
#[derive(Clone, Copy, PartialEq, Eq, Debug)]
pub enum Fault {
    OwnHouse,
    Blocked {
        by: u8,
    },
    Short {
        granter: u8,
        counterparty: u8,
        pesos: u64,
    },
}

/// Why a line or a block is not set or shown.
#[derive(Clone, Copy, PartialEq, Eq, Debug)]
pub enum Refusal {
    NoHouse = 1,
    OneHouse = 2,
    BadLimit = 9,
}

/// A line with less used than was to be freed.
#[derive(Clone, Copy, PartialEq, Eq, Debug)]
pub struct LessUsed {
    pub granter: u8,
    pub counterparty: u8,
    pub used: u64,
}

// What one house has on another: its line, and whether it blocks the other.
#[derive(Clone, Copy)]
struct Stance {
    line: Line,
    blocked: bool,
}

impl Stance {
    const NEW: Stance = Stance {
        line: Line::NEW,
        blocked: false,
    };
}

/// The lines and the blocks of sixteen houses, sixteen places to a house, in the order of the granter and the counterparty.
// No `impl Model`: the clauses speak of the `Credit`, which is made of functions, as a model's value may not be; over a list of stances each clause would be as long.
#[derive(Drop)]
pub struct Lines {
    stances: [Stance; 256],
}
