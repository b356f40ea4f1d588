// Reads the certificate: sound, with what it proposes, or the refusal.
#![tactic(auto)]

ghost use Rattle.std.specs.Prelude.{◌≡◌, ◌+◌, ◌≤◌, length};
ghost use mathlib.Core.List as list;
ghost use Rattle.words.specs.Out.{word};
ghost use Rattle.words.specs.Read.{times};
ghost use Rattle.words.specs.Answer.{as_step};
ghost use Rattle.promise.specs.Place.{many, Fit};
ghost use Rattle.promise.specs.Line as seen;
ghost use Rattle.certificate.specs.Read as read;
ghost use Rattle.certificate.specs.Found.{as_form};

use dossier::Clause;
use promise::{LiteralAt, Proposal};
use reply::{Fault, Refusal};
use words::{Item, Limit};

// A line of a proof: the atoms that it names are below `atoms`, the credentials below `creds`.
#[derive(Clone, Copy, Debug, PartialEq, Eq)]
pub struct Line {
    pub atoms: usize,
    pub creds: usize,
}

// Whether one of the count literals from `first` on speaks of the statement that the literal at p speaks of.
fn spoken_at(s: &[u16], first: usize, count: usize, p: usize) -> bool
    requires { Fit seen.literal s.now first count × ((seen.literal_at s.now p).next ≤ length s.now) }
    ensures { result ≡ read.spoken (seen.said_of s.now (seen.literal_at s.now p)) (many seen.literal s.now first count) }
{
    let l = promise::literal_at(s, p);
    let mut at = first;
    for _ in 0..count {
        let x = promise::literal_at(s, at);
        if promise::same_said(s, x, s, l) {
            return true;
        }
        at = x.next;
    }
    false
}

// k words from `at` on, of which only the presence is tested: the place after them.
fn data_at(s: &[u16], at: usize, k: usize) -> Result<usize, Refusal>
    requires { at ≤ length s.now }
    ensures { result ≡ as_step (times k word s.now at) }
{
    if s.len() - at < k {
        return Err(words::at_end(s));
    }
    Ok(at + k)
}

impl Line {
    // The place after a statement: credentials, atoms, one atom.
    fn statement_at(self, s: &[u16], at: usize) -> Result<usize, Refusal>
        ensures { result ≡ as_step (read.statement self.atoms self.creds s.now at) }
    {
        let creds = Limit {
            below: self.creds,
            fault: Fault::Credential,
        };
        let atoms = Limit {
            below: self.atoms,
            fault: Fault::Atom,
        };
        let p = words::list_at(s, at, 0..33, Some(creds))?;
        let q = words::list_at(s, p, 0..9, Some(atoms))?;
        words::word_in(s, q, 0..self.atoms, Fault::Atom)?;
        Ok(q + 1)
    }

    // The place after a literal: its sign, and the statement that it speaks of.
    fn literal_at(self, s: &[u16], at: usize) -> Result<usize, Refusal>
        ensures { result ≡ as_step (read.literal self.atoms self.creds s.now at) }
    {
        words::word_in(s, at, 0..2, Fault::Sign)?;
        self.statement_at(s, at + 1)
    }

    // The place after the literal at p, which stands after `done` literals from `at` on; it speaks of no statement that one of those speaks of.
    fn next_literal(self, s: &[u16], at: usize, done: usize, p: usize) -> Result<usize, Refusal>
        requires { Fit seen.literal s.now at done }
        ensures { result ≡ as_step (read.literals self.atoms self.creds 1 (many seen.literal s.now at done) s.now p) }
    {
        let q = self.literal_at(s, p)?;
        if spoken_at(s, at, done, p) {
            return Err(words::at_word(Fault::SaidTwice, p));
        }
        Ok(q)
    }

    // The place after k literals; none speaks of a statement that one before it speaks of.
    fn literals_at(self, s: &[u16], at: usize, k: usize) -> Result<usize, Refusal>
        ensures { result ≡ as_step (read.literals self.atoms self.creds k list.[] s.now at) }
    {
        let mut p = at;
        for done in 0..k {
            p = self.next_literal(s, at, done, p)?;
        }
        Ok(p)
    }
}

impl Item for Line {
    ghost reads = { λ it ws at. as_step (read.line it.atoms it.creds ws at) };

    // The place after the line, or its refusal: its rule, the rule's data words, literal count, literals.
    fn read(&self, s: &[u16], at: usize) -> Result<usize, Refusal> {
        let rule = words::word_in(s, at, 1..9, Fault::Rule)?;
        let q = data_at(s, at + 1, promise::data_count(rule))?;
        let k = words::word_in(s, q, 0..9, Fault::Limits)?;
        self.literals_at(s, q + 1, k)
    }
}

// The whole certificate: what it proposes; the atoms that it names are below n, the credentials below m.
#[inline(never)]
pub fn certificate(words: &[u16], n: usize, m: usize) -> Result<Proposal, Refusal>
    ensures { result ≡ as_form (read.certificate n m words.now) }
{
    if 24000 < words.len() {
        return Err(Refusal {
            fault: Fault::TooLong,
            place: 0,
            count: 0,
        });
    }
    let kind = words::word_in(words, 0, 1..3, Fault::Kind)?;
    if kind == 1 {
        let clauses = words::last_section(words, 1, 0..129, &Clause { atoms: n })?;
        return Ok(Proposal::Witness(clauses));
    }
    let line = Line { atoms: n, creds: m };
    let lines = words::last_section(words, 1, 1..1025, &line)?;
    Ok(Proposal::Proof(lines))
}
