ghost use Rattle.std.specs.Prelude.{Some};
ghost use Rattle.lines.specs.Printed.{refusal_text, cause};

use super::{Fault, Refusal};
use std::fmt;

// By hand, since what a derive prints has no contract.
impl fmt::Display for Refusal {
    ghost output = { λ refusal. Some (refusal_text refusal) };

    fn fmt<W: fmt::Write>(&self, f: &mut fmt::Formatter<W>) -> fmt::Result {
        f.write_str(match self {
            Refusal::NoHouse => "a house is above 15",
            Refusal::OneHouse => "one house is named as both",
            Refusal::BadLimit => "the limit is below what is used, or above 10^15",
        })
    }
}

impl fmt::Display for Fault {
    ghost output = { λ fault. Some (cause fault) };

    fn fmt<W: fmt::Write>(&self, f: &mut fmt::Formatter<W>) -> fmt::Result {
        match *self {
            Fault::OwnHouse => f.write_str("own house"),
            Fault::Blocked { by } => write!(f, "blocked by {by}"),
            Fault::Short {
                granter,
                counterparty,
                pesos,
            } => write!(f, "short {granter} {counterparty} {pesos}"),
        }
    }
}
