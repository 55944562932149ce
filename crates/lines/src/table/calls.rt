ghost use Rattle.std.specs.Prelude.{◌≡◌, ℕ, ◌+◌, ◌≤◌, true, false, if◌then◌else◌, Some, None};
ghost use Rattle.lines.specs.Credit.{Clear, set_at, Drawn, Freed};
ghost use Rattle.lines.specs.Rules.{two_houses, Sound, answered, refusal_number, fault_case, LimitSet, BlockSet, Shown, short, fault, Exact, falls_on, Uses, free_refused, Frees, FreesPair, Restores};
ghost use Rattle.lines.specs.Of.{credit, Has, Put};

use super::pair::Pair;
use super::{Deal, Fault, LessUsed, Line, Lines, Refusal, Stance};

impl Refusal {
    pub fn number(self) -> u8
        ensures { result ≡ refusal_number self }
    {
        self as u8
    }
}

impl Fault {
    // A match, since a variant that holds data has no number of its own.
    pub fn case(self) -> u8
        ensures { result ≡ fault_case self }
    {
        match self {
            Fault::OwnHouse => 1,
            Fault::Blocked { .. } => 2,
            Fault::Short { .. } => 3,
        }
    }
}

impl Deal {
    // The pesos that are asked of each side's line on the other, the buyer's first: none where it does not pledge.
    fn asked(self) -> (u64, u64)
        ensures buyer { result.0 ≡ (if self.pledges.0 then self.value else 0) }
        ensures seller { result.1 ≡ (if self.pledges.1 then self.value else 0) }
    {
        let of = |pledges: bool| if pledges { self.value } else { 0 };
        (of(self.pledges.0), of(self.pledges.1))
    }
}

impl Lines {
    /// No line granted, and no block.
    #[tactic(auto, using(crate::proofs::Entries::unpaired))]
    pub fn new() -> Lines
        ensures { Clear (credit result) }
    {
        Lines::all(Stance::NEW)
    }

    // Every house has this on every other.
    fn all(stance: Stance) -> Lines
        ensures { (g k : ℕ) → two_houses g k ≡ true → Has (credit result) g k stance }
    {
        Lines {
            stances: [stance; 256],
        }
    }

    fn at(&self, pair: Pair) -> Stance
        ensures { Has (credit self.now) pair.granter pair.counterparty result }
    {
        self.stances[pair.place()]
    }

    fn put(&mut self, pair: Pair, stance: Stance)
        ensures { Put (credit self.old) pair.granter pair.counterparty stance (credit self.new) }
    {
        self.stances[pair.place()] = stance;
    }

    // What one house has on another; nothing where they are not two houses.
    fn stance(&self, granter: u8, counterparty: u8) -> Stance
        ensures { Has (credit self.now) granter counterparty result }
    {
        match Pair::of(granter, counterparty) {
            Ok(pair) => self.at(pair),
            Err(_) => Stance::NEW,
        }
    }

    // Sets what is used of a line. Two numbers that are not two houses have a line of which nothing can be used: then there is nothing to write.
    #[tactic(auto, using(crate::proofs::Entries::unpaired))]
    fn set_used(&mut self, granter: u8, counterparty: u8, used: u64)
        requires { used ≤ (credit self.old).limit granter counterparty }
        ensures { Drawn (credit self.old) (set_at (credit self.old).used granter counterparty used) (credit self.new) }
    {
        if let Ok(pair) = Pair::of(granter, counterparty) {
            let stance = self.at(pair);
            let limit = stance.line.limit;
            let line = Line { limit, used };
            self.put(pair, Stance { line, ..stance });
        }
    }

    // Sets what is used of a line whose granter pledges it; of another's as much is used as before, and nothing is written.
    fn draw(&mut self, pledged: bool, granter: u8, counterparty: u8, used: u64)
        requires room { used ≤ (credit self.old).limit granter counterparty }
        requires kept { pledged ≡ false → used ≡ (credit self.old).used granter counterparty }
        ensures { Drawn (credit self.old) (set_at (credit self.old).used granter counterparty used) (credit self.new) }
    {
        if pledged {
            self.set_used(granter, counterparty, used);
        }
    }

    /// Sets the limit of a line; what is used of it stays.
    pub fn set_limit(&mut self, granter: u8, counterparty: u8, pesos: u64) -> Result<(), Refusal>
        ensures { LimitSet (credit self.old) granter counterparty pesos result (credit self.new) }
    {
        let pair = Pair::of(granter, counterparty)?;
        let stance = self.at(pair);
        let used = stance.line.used;
        if pesos < used || pesos > Line::CEILING {
            return Err(Refusal::BadLimit);
        }
        let line = Line { limit: pesos, used };
        self.put(pair, Stance { line, ..stance });
        Ok(())
    }

    /// Sets or lifts the block of a house on another.
    pub fn set_block(&mut self, house: u8, other: u8, on: bool) -> Result<(), Refusal>
        ensures { BlockSet (credit self.old) house other on result (credit self.new) }
    {
        let pair = Pair::of(house, other)?;
        let line = self.at(pair).line;
        self.put(pair, Stance { line, blocked: on });
        Ok(())
    }

    /// Shows the line of one house on another.
    #[tactic(auto, using(crate::proofs::Entries::sound))]
    pub fn line(&self, granter: u8, counterparty: u8) -> Result<Line, Refusal>
        ensures shown { Shown (credit self.now) granter counterparty result }
        ensures sound { Sound (credit self.now) }
    {
        let pair = Pair::of(granter, counterparty)?;
        Ok(self.at(pair).line)
    }

    // Refuses a line with too few pesos for a value.
    fn room(&self, granter: u8, counterparty: u8, value: u64) -> Result<(), Fault>
        ensures { result ≡ answered (short (credit self.now) granter counterparty value) }
    {
        let line = self.stance(granter, counterparty).line;
        let pesos = value.saturating_sub(line.limit - line.used);
        if pesos > 0 {
            return Err(Fault::Short {
                granter,
                counterparty,
                pesos,
            });
        }
        Ok(())
    }

    /// Whether two houses may trade, and if not, why not.
    pub fn may_trade(&self, deal: Deal) -> Result<(), Fault>
        ensures first { result ≡ answered (fault (credit self.now) deal) }
        ensures exact { Exact (credit self.now) deal result }
    {
        let Deal { buyer, seller, .. } = deal;
        if buyer == seller {
            return Err(Fault::OwnHouse);
        }
        if self.stance(buyer, seller).blocked {
            return Err(Fault::Blocked { by: buyer });
        }
        if self.stance(seller, buyer).blocked {
            return Err(Fault::Blocked { by: seller });
        }
        let (from_buyer, from_seller) = deal.asked();
        self.room(buyer, seller, from_buyer)?;
        self.room(seller, buyer, from_seller)
    }

    /// Uses the value of each pledging side's line on the other, where the two may trade.
    pub fn use_lines(&mut self, deal: Deal) -> Result<(), Fault>
        ensures { Uses (credit self.old) deal result (credit self.new) }
    {
        self.may_trade(deal)?;
        let Deal {
            pledges,
            buyer,
            seller,
            ..
        } = deal;
        let (from_buyer, from_seller) = deal.asked();
        let buyer_used = self.stance(buyer, seller).line.used + from_buyer;
        let seller_used = self.stance(seller, buyer).line.used + from_seller;
        self.draw(pledges.0, buyer, seller, buyer_used);
        self.draw(pledges.1, seller, buyer, seller_used);
        Ok(())
    }

    // Refuses a line with less used than the value.
    fn enough(&self, granter: u8, counterparty: u8, value: u64) -> Result<(), LessUsed>
        ensures { result ≡ answered (free_refused (credit self.now) granter counterparty value) }
    {
        let used = self.stance(granter, counterparty).line.used;
        if used < value {
            return Err(LessUsed {
                granter,
                counterparty,
                used,
            });
        }
        Ok(())
    }

    /// Frees one granter's line of a value.
    pub fn free(&mut self, granter: u8, counterparty: u8, value: u64) -> Result<(), LessUsed>
        ensures { Frees (credit self.old) granter counterparty value result (credit self.new) }
    {
        self.enough(granter, counterparty, value)?;
        let used = self.stance(granter, counterparty).line.used;
        self.set_used(granter, counterparty, used - value);
        Ok(())
    }

    // Frees each pledging side's line on the other, which has so much used.
    fn free_both(&mut self, deal: Deal)
        requires buyer { deal.pledges.0 ≡ true → deal.value ≤ (credit self.old).used deal.buyer deal.seller }
        requires seller { deal.pledges.1 ≡ true → deal.value ≤ (credit self.old).used deal.seller deal.buyer }
        ensures { Freed (credit self.old) (falls_on deal.pledges deal.buyer deal.seller) deal.value (credit self.new) }
    {
        let Deal {
            pledges,
            buyer,
            seller,
            ..
        } = deal;
        let (from_buyer, from_seller) = deal.asked();
        let buyer_left = self.stance(buyer, seller).line.used - from_buyer;
        let seller_left = self.stance(seller, buyer).line.used - from_seller;
        self.draw(pledges.0, buyer, seller, buyer_left);
        self.draw(pledges.1, seller, buyer, seller_left);
    }

    /// Frees the value of each pledging side's line on the other: what `use_lines` took, this gives back.
    pub fn free_pair(&mut self, deal: Deal) -> Result<(), LessUsed>
        ensures freed { FreesPair (credit self.old) deal result (credit self.new) }
        ensures restores { Restores (credit self.old) deal result (credit self.new) }
    {
        let Deal { buyer, seller, .. } = deal;
        let (from_buyer, from_seller) = deal.asked();
        self.enough(buyer, seller, from_buyer)?;
        self.enough(seller, buyer, from_seller)?;
        self.free_both(deal);
        Ok(())
    }
}
