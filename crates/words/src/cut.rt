ghost use Rattle.std.specs.Prelude.{◌≡◌, length, position};
ghost use Rattle.std.specs.Iterator.{at_most};
ghost use Rattle.words.specs.declared.mark.Mark.TheVariants.{LineEnd};
ghost use Rattle.words.specs.Words.{is, before, from, next_word, after, next_line, after_line, number, HandsOut};

use super::mark::Mark;

impl Mark {
    fn is(self, b: u8) -> bool
        ensures { result ≡ is self b }
    {
        match self {
            Mark::Blank => b <= b' ',
            Mark::Solid => b > b' ',
            Mark::LineEnd => b == b'\n',
        }
    }
}

// Where the first byte stands that is marked.
fn first(text: &[u8], mark: Mark) -> Option<usize>
    ensures { result ≡ position (is mark) text.now }
{
    text.iter().position(|b| mark.is(*b))
}

// The bytes before the first that is marked, and those from it on.
fn cut(text: &[u8], mark: Mark) -> (&[u8], &[u8])
    ensures before { result.0.now ≡ before mark text.now }
    ensures from { result.1.now ≡ from mark text.now }
{
    let n = first(text, mark).unwrap_or(text.len());
    text.split_at(n)
}

// The words of a text, handed out one by one.
#[derive(Drop)]
pub struct Words<'a> {
    rest: &'a [u8],
}

impl<'a> Words<'a> {
    pub fn new(text: &'a [u8]) -> Words<'a>
        ensures { result.rest.now ≡ text.now }
    {
        Words { rest: text }
    }

    // What follows the words handed out so far.
    pub fn rest(&self) -> &'a [u8]
        ensures { result.now ≡ self.now.rest.now }
    {
        self.rest
    }
}

impl<'a> Iterator for Words<'a> {
    type Item = &'a [u8];

    ghost next_gives = { λ s r t. HandsOut next_word after s.rest.now r t.rest.now };

    ghost remaining = { λ s. at_most (length s.rest.now) };

    fn next(&mut self) -> Option<&'a [u8]> {
        let (_, text) = cut(self.rest, Mark::Solid);
        let (word, rest) = cut(text, Mark::Blank);
        self.rest = rest;
        if word.is_empty() { None } else { Some(word) }
    }
}

// The lines of a text, handed out one by one, each without the byte that ends it.
// A type beside `Words`, as std has one for each: the two share what they hold, and hand out by rules of their own.
#[derive(Drop)]
pub struct Lines<'a> {
    rest: &'a [u8],
}

impl<'a> Lines<'a> {
    pub fn new(text: &'a [u8]) -> Lines<'a>
        ensures { result.rest.now ≡ text.now }
    {
        Lines { rest: text }
    }
}

impl<'a> Iterator for Lines<'a> {
    type Item = &'a [u8];

    ghost next_gives = { λ s r t. HandsOut next_line after_line s.rest.now r t.rest.now };

    ghost remaining = { λ s. at_most (length s.rest.now) };

    fn next(&mut self) -> Option<&'a [u8]> {
        let text = self.rest;
        let (line, end) = cut(text, Mark::LineEnd);
        // behind the byte that ends the line, if one does
        self.rest = end.get(1..).unwrap_or(end);
        if text.is_empty() { None } else { Some(line) }
    }
}

// The number that a word writes in 1 to 18 digits.
#[tactic(auto, using(crate::proofs::Digits::power_within))]
pub fn number(word: &[u8]) -> Option<u64>
    ensures { result ≡ number word.now }
{
    if word.is_empty() || word.len() > 18 {
        return None;
    }
    // a `for`: of a fold, the proof would owe that no sum of digits overflows, before it knows that they are few
    let mut n = 0;
    for b in word {
        if !b.is_ascii_digit() {
            return None;
        }
        n = n * 10 + u64::from(*b - b'0');
    }
    Some(n)
}
