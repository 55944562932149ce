ghost use Rattle.std.specs.Prelude.{◌≡◌, ◌+◌, ◌*◌, ◌<◌, true, IfOk, IfErr, Some};
ghost use Rattle.lines.specs.Rules.{two_houses, pair_refused};

use super::Refusal;

// Two houses that differ: the first, whose line or block it is, and the one that it is on.
// Calls take two numbers, and no pair: any two may be asked about, and only those that are tested are a `Pair`.
#[derive(Clone, Copy)]
pub struct Pair {
    pub granter: u8,
    pub counterparty: u8,
    ghost apart: { two_houses granter counterparty ≡ true },
}

impl Pair {
    // Refuses a house above 15, and then one house named as both.
    pub fn of(granter: u8, counterparty: u8) -> Result<Pair, Refusal>
        ensures houses { IfOk result (λ pair. (pair.granter ≡ granter) × (pair.counterparty ≡ counterparty)) }
        ensures refused { IfErr result (λ refusal. pair_refused granter counterparty ≡ Some refusal) }
    {
        if granter >= 16 || counterparty >= 16 {
            return Err(Refusal::NoHouse);
        }
        if granter == counterparty {
            return Err(Refusal::OneHouse);
        }
        Ok(Pair {
            granter,
            counterparty,
        })
    }

    // Where the table has what the granter has on the counterparty.
    pub fn place(self) -> usize
        ensures place { result ≡ self.granter * 16 + self.counterparty }
        ensures within { result < 256 }
    {
        usize::from(self.granter) * 16 + usize::from(self.counterparty)
    }
}
