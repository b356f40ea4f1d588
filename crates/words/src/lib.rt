// Words, rising lists of them, and sections of items, read at a position: what every reader of a paper shares.
#![tactic(auto)]

mod item;

ghost use Rattle.std.specs.Prelude.{◌≡◌, ◌<◌, length, IfOk};
ghost use Rattle.words.specs.Read.{ranged, next, rising, listed};
ghost use Rattle.words.specs.Answer.{at_word, end_by, step_by, got_by, low_by, range_by};

pub use item::{Item, Section, last_section, section_after};
use reply::{Fault, Refusal, Tells};
use std::ops::Range;

// What the words of a list have to be below, and what is wrong with one that is not.
#[derive(Clone, Copy, Debug, PartialEq, Eq)]
pub struct Limit<W = Fault> {
    pub below: usize,
    pub fault: W,
}

// The refusal that shows the one word at the place.
pub fn at_word<W>(fault: W, place: usize) -> Refusal<W>
    ensures { result ≡ at_word fault place }
{
    Refusal {
        fault,
        place,
        count: 1,
    }
}

// A word is needed and the paper has ended: the refusal shows no word, at its end.
pub fn at_end<W: Tells>(s: &[u16]) -> Refusal<W>
    ensures { result ≡ end_by W.from_number s.now }
{
    Refusal {
        fault: W::of(Fault::Ended),
        place: s.len(),
        count: 0,
    }
}

// The word at `at`, which is to be in the range; else a refusal with the fault.
pub fn word_in<W: Tells>(
    s: &[u16],
    at: usize,
    range: Range<usize>,
    fault: W,
) -> Result<usize, Refusal<W>>
    ensures { (result ≡ got_by W.from_number (ranged range.start range.end (W.as_number fault) s.now at)) × IfOk result (λ x. at < length s.now) }
{
    if s.len() <= at {
        return Err(at_end(s));
    }
    let x = s[at] as usize;
    if !range.contains(&x) {
        return Err(at_word(fault, at));
    }
    Ok(x)
}

// The word at p, which is to be within the limit and at least low; told by the least that the word after it may be.
fn next_word<W: Tells>(
    s: &[u16],
    p: usize,
    low: usize,
    limit: Option<Limit<W>>,
) -> Result<usize, Refusal<W>>
    ensures { result ≡ low_by W.from_number (next (range_by W.as_number limit) low s.now p) }
{
    if s.len() <= p {
        return Err(at_end(s));
    }
    let x = s[p] as usize;
    if let Some(limit) = limit {
        if limit.below <= x {
            return Err(at_word(limit.fault, p));
        }
    }
    if x < low {
        return Err(at_word(W::of(Fault::NotRising), p));
    }
    Ok(x + 1)
}

// k words from `at` on, each within the limit, strictly rising: the place after them.
pub fn rising_words<W: Tells>(
    s: &[u16],
    at: usize,
    k: usize,
    limit: Option<Limit<W>>,
) -> Result<usize, Refusal<W>>
    ensures { result ≡ step_by W.from_number (rising (range_by W.as_number limit) 0 k s.now at) }
{
    let mut low = 0;
    for i in 0..k {
        low = next_word(s, at + i, low, limit)?;
    }
    Ok(at + k)
}

// A list: a count in the range, and so many words; the place after them.
pub fn list_at<W: Tells>(
    s: &[u16],
    at: usize,
    counts: Range<usize>,
    limit: Option<Limit<W>>,
) -> Result<usize, Refusal<W>>
    ensures { result ≡ step_by W.from_number (listed counts.start counts.end (range_by W.as_number limit) s.now at) }
{
    let k = word_in(s, at, counts, W::of(Fault::Limits))?;
    rising_words(s, at + 1, k, limit)
}
