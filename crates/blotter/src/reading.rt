//! A line, read.
ghost use Rattle.std.specs.Prelude.{◌≡◌};
ghost use Rattle.trades.specs.Trades.{kind};
ghost use Rattle.blotter.specs.Reading.{Reads, figure, house, switch, ends, ended, figures, limit, block, entry, trade, read};

use super::entry::{Entry, Field, Flaw};
use trades::{Figures, Kind, Trade};
use words::{Words, number};

fn figure(words: &mut Words, field: Field) -> Result<u64, Flaw>
    ensures { Reads (figure field) words.old.rest.now result words.new.rest.now }
{
    let word = words.next().ok_or(Flaw::Missing(field))?;
    number(word).ok_or(Flaw::NoNumber(field))
}

fn house(words: &mut Words, field: Field) -> Result<u8, Flaw>
    ensures { Reads (house field) words.old.rest.now result words.new.rest.now }
{
    let n = figure(words, field)?;
    if n > 15 {
        return Err(Flaw::NoHouse(field));
    }
    // `as`, since it is proved to lose nothing: the bound is a house's and not the type's.
    Ok(n as u8)
}

fn switch(words: &mut Words) -> Result<bool, Flaw>
    ensures { Reads switch words.old.rest.now result words.new.rest.now }
{
    match words.next() {
        None => Err(Flaw::Missing(Field::Switch)),
        Some(b"on") => Ok(true),
        Some(b"off") => Ok(false),
        Some(_) => Err(Flaw::NoSwitch),
    }
}

// A line has come to its end, or to a comment.
fn end(mut words: Words) -> Result<(), Flaw>
    ensures { result ≡ ended words.entry.rest.now tt }
{
    match words.next() {
        None | Some([b'#', ..]) => Ok(()),
        Some(_) => Err(Flaw::Surplus),
    }
}

// The figures of a trade, after its market.
fn figures(kind: Kind, mut words: Words) -> Result<Figures, Flaw>
    ensures { result ≡ figures kind words.entry.rest.now }
{
    let figures = Figures {
        kind,
        buyer: figure(&mut words, Field::Buyer)?,
        seller: figure(&mut words, Field::Seller)?,
        paper: figure(&mut words, Field::Paper)?,
        lots: figure(&mut words, Field::Lots)?,
        quote: figure(&mut words, Field::Quote)?,
        days: figure(&mut words, Field::Days)?,
    };
    end(words)?;
    Ok(figures)
}

fn limit(mut words: Words) -> Result<Entry, Flaw>
    ensures { result ≡ limit words.entry.rest.now }
{
    let entry = Entry::Limit {
        granter: house(&mut words, Field::Granter)?,
        counterparty: house(&mut words, Field::Counterparty)?,
        pesos: figure(&mut words, Field::Pesos)?,
    };
    end(words)?;
    Ok(entry)
}

fn block(mut words: Words) -> Result<Entry, Flaw>
    ensures { result ≡ block words.entry.rest.now }
{
    let entry = Entry::Block {
        house: house(&mut words, Field::House)?,
        other: house(&mut words, Field::Other)?,
        on: switch(&mut words)?,
    };
    end(words)?;
    Ok(entry)
}

fn trade(market: &[u8], words: Words) -> Result<Entry, Flaw>
    ensures { result ≡ trade (kind market.now) words.entry.rest.now }
{
    let kind = Kind::try_from(market)?;
    let figures = figures(kind, words)?;
    Ok(Entry::Trade(Trade::try_from(figures)?))
}

// What a line tells, by its first word.
fn entry(word: &[u8], words: Words) -> Result<Entry, Flaw>
    ensures { result ≡ entry word.now words.entry.rest.now }
{
    match word {
        b"limit" => limit(words),
        b"block" => block(words),
        market => trade(market, words),
    }
}

// What a line tells, or the first thing wrong with it; a blank line and a comment tell nothing.
pub fn read(line: &[u8]) -> Result<Option<Entry>, Flaw>
    ensures { result ≡ read line.now }
{
    let mut words = Words::new(line);
    match words.next() {
        None | Some([b'#', ..]) => Ok(None),
        Some(word) => Ok(Some(entry(word, words)?)),
    }
}
