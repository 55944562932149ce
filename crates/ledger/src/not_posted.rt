//! Why a trade is not posted.
ghost use Rattle.std.specs.Prelude.{◌≡◌};
ghost use Rattle.ledger.specs.declared.not_posted.NotPosted.TheVariants.{PassedOver, Refused};

use book::Refusal;
use lines::Fault;

#[derive(Clone, Copy, PartialEq, Eq, Debug)]
pub enum NotPosted {
    // The lines do not allow it.
    PassedOver(Fault),
    // The book does not take it.
    Refused(Refusal),
}

// The conversions are by hand, since a derived one has no contract.
impl From<Fault> for NotPosted {
    ghost from_gives = { λ fault r. r ≡ PassedOver fault };

    fn from(fault: Fault) -> NotPosted {
        NotPosted::PassedOver(fault)
    }
}

impl From<Refusal> for NotPosted {
    ghost from_gives = { λ refusal r. r ≡ Refused refusal };

    fn from(refusal: Refusal) -> NotPosted {
        NotPosted::Refused(refusal)
    }
}
