//! The checks on a trade's figures, and its value.
ghost use Rattle.std.specs.Prelude.{◌≡◌};
ghost use Rattle.std.specs.Result.{result_ok};
ghost use Rattle.trades.specs.Trades.{market, name, kind, value, flaw, told, checked};

use super::trade::{Figures, Flaw, Kind, Trade, UnknownMarket};
use market::{Interbank, Market, Price, Rate, Terms};

// `Kind` is matched on once for each member of its market that is asked of it: a `&dyn Market` may not be handed out, and a `Kind` that is itself a `Market` would need five such matches.
impl Kind {
    // The word by which a line of text names the market.
    pub fn name(self) -> &'static str
        ensures { result.now ≡ name self }
    {
        match self {
            Kind::Price => "price",
            Kind::Rate => "rate",
            Kind::Interbank => "interbank",
        }
    }

    // Whether the buyer pledges its line on the seller, and whether the seller does its own on the buyer.
    pub fn pledges(self) -> (bool, bool)
        ensures { result ≡ (market self).pledges }
    {
        match self {
            Kind::Price => Price.pledges(),
            Kind::Rate => Rate.pledges(),
            Kind::Interbank => Interbank.pledges(),
        }
    }

    fn highest(self) -> u32
        ensures { result ≡ (market self).highest }
    {
        match self {
            Kind::Price => Price.highest(),
            Kind::Rate => Rate.highest(),
            Kind::Interbank => Interbank.highest(),
        }
    }
}

impl<'a> TryFrom<&'a [u8]> for Kind {
    type Error = UnknownMarket;

    ghost try_from_gives = { λ word r. result_ok r ≡ kind word.now };

    // The market that a word names.
    fn try_from(word: &'a [u8]) -> Result<Kind, UnknownMarket> {
        match word {
            b"price" => Ok(Kind::Price),
            b"rate" => Ok(Kind::Rate),
            b"interbank" => Ok(Kind::Interbank),
            _ => Err(UnknownMarket),
        }
    }
}

impl Figures {
    fn check(&self) -> Result<(), Flaw>
        ensures { result ≡ checked (flaw self.now) tt }
    {
        let highest = self.kind.highest();
        if self.buyer > 15 {
            Err(Flaw::NoBuyer)
        } else if self.seller > 15 {
            Err(Flaw::NoSeller)
        } else if self.buyer == self.seller {
            Err(Flaw::OneHouse)
        } else if self.paper > 7 {
            Err(Flaw::NoPaper)
        } else if !(1..=1_000_000).contains(&self.lots) {
            Err(Flaw::Lots)
        } else if !(1..=u64::from(highest)).contains(&self.quote) {
            Err(Flaw::Quote(highest))
        } else if self.days > 365 {
            Err(Flaw::Days)
        } else {
            Ok(())
        }
    }
}

impl TryFrom<Figures> for Trade {
    type Error = Flaw;

    ghost try_from_gives = { λ figures r. r ≡ checked (flaw figures) (told figures) };

    // The trade that the figures tell, or the first of them that is out of range.
    fn try_from(figures: Figures) -> Result<Trade, Flaw> {
        figures.check()?;
        // `as`, since after the check it is proved to lose nothing: a `try_from` would have an error that never comes.
        Ok(Trade {
            kind: figures.kind,
            buyer: figures.buyer as u8,
            seller: figures.seller as u8,
            paper: figures.paper as u8,
            lots: figures.lots as u32,
            quote: figures.quote as u32,
            days: figures.days as u32,
        })
    }
}

impl Trade {
    // Pesos that the buyer pays and the seller gets.
    pub fn value(&self) -> u64
        ensures { result ≡ value self.now }
    {
        let terms = Terms {
            lots: self.lots,
            quote: self.quote,
            days: self.days,
        };
        match self.kind {
            Kind::Price => Price.value(terms),
            Kind::Rate => Rate.value(terms),
            Kind::Interbank => Interbank.value(terms),
        }
    }
}
