// Sections of items: a count, and so many items one after the other.

ghost use Rattle.std.specs.Prelude.{◌≡◌, ◌≤◌, ℕ, List, length};
ghost use Rattle.std.specs.Prelude.{Result, IfOk};
ghost use Rattle.reply.specs.declared.Fault.{Fault};
ghost use Rattle.reply.specs.declared.Refusal.{Refusal};
ghost use Rattle.words.specs.Answer.{Within};
ghost use Rattle.words.specs.Items.{SectionWithin, items_step, section_step, part_step, last_step};

use reply::{Fault, Refusal};
use std::ops::Range;

// What a section is made of: an item is read at a place, and what it is read against stands in the value.
pub trait Item {
    // What reading one at a place of the words answers.
    ghost reads: { Self → List ℕ → ℕ → Result ℕ (Refusal Fault) };

    // The place after the item that begins at `at`, or its refusal; a place of the paper, where `at` is one.
    fn read(&self, s: &[u16], at: usize) -> Result<usize, Refusal>
        ensures { (result ≡ reads self.now s.now at) × (at ≤ length s.now → Within (length s.now) result) };
}

// How many items a section has, and the place after it.
#[derive(Clone, Copy, Debug, PartialEq, Eq)]
pub struct Section {
    pub count: usize,
    pub next: usize,
}

// k items from `at` on, one after the other: the place after them.
fn items_from<T: Item>(s: &[u16], at: usize, k: usize, item: &T) -> Result<usize, Refusal>
    ensures { (result ≡ items_step (T.reads item.now) k s.now at) × (at ≤ length s.now → Within (length s.now) result) }
{
    let mut p = at;
    for _ in 0..k {
        p = item.read(s, p)?;
    }
    Ok(p)
}

// A section that begins where these words do: a count in the range, and so many items.
fn section_of<T: Item>(s: &[u16], counts: Range<usize>, item: &T) -> Result<Section, Refusal>
    ensures { (result ≡ section_step (T.reads item.now) counts.start counts.end s.now) × SectionWithin (length s.now) result }
{
    let count = crate::word_in(s, 0, counts, Fault::Limits)?;
    let next = items_from(s, 1, count, item)?;
    Ok(Section { count, next })
}

// The section that begins at p: it is read as the part from there on. It ends in the paper.
pub fn section_after<T: Item>(
    s: &[u16],
    p: usize,
    counts: Range<usize>,
    item: &T,
) -> Result<Section, Refusal>
    requires { p ≤ length s.now }
    ensures { (result ≡ part_step (T.reads item.now) counts.start counts.end s.now p) × IfOk result (λ x. x.next ≤ length s.now) }
{
    match section_of(&s[p..], counts, item) {
        Err(refusal) => Err(Refusal {
            place: p + refusal.place,
            ..refusal
        }),
        Ok(section) => Ok(Section {
            next: p + section.next,
            ..section
        }),
    }
}

// The section that begins at p, and no word after it: how many items it has.
pub fn last_section<T: Item>(
    s: &[u16],
    p: usize,
    counts: Range<usize>,
    item: &T,
) -> Result<usize, Refusal>
    requires { p ≤ length s.now }
    ensures { result ≡ last_step (T.reads item.now) counts.start counts.end s.now p }
{
    let section = section_after(s, p, counts, item)?;
    if section.next < s.len() {
        return Err(crate::at_word(Fault::LeftOver, section.next));
    }
    Ok(section.count)
}
