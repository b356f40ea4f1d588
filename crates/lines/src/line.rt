// Literals and lines, as they lie in a certificate's words.
#![tactic(auto, using(crate::proofs::Bools::bools), unfolding(meaning::specs::Rules::denied, meaning::specs::Rules::claims))]

ghost use Rattle.std.specs.Prelude.{◌≡◌, ◌+◌, ◌≤◌, ◌<◌, true, false, List, [], length};
ghost use Rattle.std.specs.Iterator.{YieldsFirst, item_count};
ghost use Rattle.meaning.specs.Tests.{◌and◌, ◌or◌, ◌is◌, agree, all, mem, at};
ghost use Rattle.meaning.specs.Papers as papers;
ghost use Rattle.meaning.specs.Rules.{same_statement, supposed, is_in, denied, claims, omit, others};
ghost use Rattle.promise.specs.Place.{many, Fit};
ghost use Rattle.promise.specs.Line.{Held, literal_of, literal, data_count, line_of, line_at, line, LineFits};
ghost use Rattle.lines.specs.Named.{told, rule_told};
ghost use Rattle.lines.specs.Ready.{LineStarts};

use crate::list::{among, part, pick, same, same_without};
use crate::rule::{Rule, rule_at};
use promise::{LineAt, LiteralAt, line_at, literal_at, same_said};
use std::marker::Model;

// A literal.
#[derive(Drop)]
pub(crate) struct Literal<'a> {
    words: &'a [u16],
    at: LiteralAt,
}

impl<'a> Model for Literal<'a> {
    ghost Value = { papers.Literal };

    ghost view = { λ l. literal_of l.words.now l.at };

    ghost invariant = { λ l. Held l.words.now l.at };
}

impl<'a> Literal<'a> {
    // The positive literal on the atom x given the credentials and no atoms. It lies nowhere, so that no place comes after it.
    pub(crate) fn given(creds: &'a [u16], x: usize) -> Literal<'a>
        ensures { result ≡ record { positive = true; said = record { creds = creds.now; atoms = []; atom = x } } }
    {
        Literal {
            words: creds,
            at: LiteralAt {
                positive: true,
                creds: 0,
                ncreds: creds.len(),
                atoms: 0,
                natoms: 0,
                atom: x,
                next: 0,
            },
        }
    }

    // The negative literal on the atom x that shares with this one.
    pub(crate) fn denying(&self, x: usize) -> Literal<'a>
        ensures { result ≡ record { positive = false; said = record { creds = self.now.said.creds; atoms = self.now.said.atoms; atom = x } } }
    {
        Literal {
            words: self.words,
            at: LiteralAt {
                positive: false,
                creds: self.at.creds,
                ncreds: self.at.ncreds,
                atoms: self.at.atoms,
                natoms: self.at.natoms,
                atom: x,
                next: 0,
            },
        }
    }

    // Its sign.
    pub(crate) fn positive(&self) -> bool
        ensures { result ≡ self.now.positive }
    {
        self.at.positive
    }

    // Its atom.
    pub(crate) fn atom(&self) -> usize
        ensures { result ≡ self.now.said.atom }
    {
        self.at.atom
    }

    // The numbers of its credentials.
    pub(crate) fn creds(&self) -> &'a [u16]
        ensures { result.now ≡ self.now.said.creds }
    {
        part(self.words, self.at.creds, self.at.ncreds)
    }

    // The atoms that it is given.
    pub(crate) fn atoms(&self) -> &'a [u16]
        ensures { result.now ≡ self.now.said.atoms }
    {
        part(self.words, self.at.atoms, self.at.natoms)
    }

    // Whether it and the other speak of one statement.
    #[inline(always)]
    pub(crate) fn says_same_as(&self, other: &Literal) -> bool
        ensures { result ≡ same_statement self.now.said other.now.said }
    {
        same_said(self.words, self.at, other.words, other.at)
    }

    // Whether it and the other have one sign and one statement.
    pub(crate) fn is_same_as(&self, other: &Literal) -> bool
        ensures { result ≡ (agree self.now.positive other.now.positive and same_statement self.now.said other.now.said) }
    {
        self.at.positive == other.at.positive && self.says_same_as(other)
    }

    // Whether it is positive, with the atoms of m and with the credentials of m without c.
    pub(crate) fn claims_without(&self, m: &Literal, c: usize) -> bool
        ensures { result ≡ claims (omit c m.now.said.creds) m.now.said.atoms self.now }
    {
        self.at.positive
            && same_without(self.creds(), m.creds(), c)
            && same(self.atoms(), m.atoms())
    }
}

// The literals of a line that are still to be seen, the first first.
#[derive(Drop)]
pub(crate) struct Literals<'a> {
    words: &'a [u16],
    at: usize,
    left: usize,
}

impl<'a> Model for Literals<'a> {
    ghost Value = { List papers.Literal };

    ghost view = { λ s. many literal s.words.now s.at s.left };

    ghost invariant = { λ s. Fit literal s.words.now s.at s.left };
}

impl<'a> Iterator for Literals<'a> {
    type Item = Literal<'a>;

    ghost next_gives = { YieldsFirst (λ s. s) };

    ghost remaining = { item_count (λ s. s) };

    // The first that is left, if one is.
    fn next(&mut self) -> Option<Literal<'a>> {
        if self.left == 0 {
            return None;
        }
        let at = literal_at(self.words, self.at);
        self.at = at.next;
        self.left -= 1;
        Some(Literal {
            words: self.words,
            at,
        })
    }
}

// A line.
#[derive(Drop)]
pub struct Line<'a> {
    words: &'a [u16],
    at: LineAt,
}

impl<'a> Model for Line<'a> {
    ghost Value = { papers.Line };

    ghost view = { λ v. line_of v.words.now v.at };

    ghost invariant = { λ v. (0 < v.at.rule) × (v.at.args + data_count v.at.rule ≤ length v.words.now) × Fit literal v.words.now v.at.literals v.at.count };
}

impl<'a> Line<'a> {
    // The line at q.
    pub fn at(words: &'a [u16], q: usize) -> Line<'a>
        requires { LineFits words.now q }
        ensures { result ≡ line_of words.now (line_at words.now q) }
    {
        Line {
            words,
            at: line_at(words, q),
        }
    }

    // Its rule.
    pub(crate) fn rule(&self) -> Rule
        ensures { rule_told result ≡ self.now.rule }
    {
        rule_at(self.words, self.at.rule, self.at.args)
    }

    // How many literals it has.
    pub(crate) fn count(&self) -> usize
        ensures { result ≡ length self.now.literals }
    {
        self.at.count
    }

    // Its literals.
    pub(crate) fn literals(&self) -> Literals<'a>
        ensures { result ≡ self.now.literals }
    {
        Literals {
            words: self.words,
            at: self.at.literals,
            left: self.at.count,
        }
    }

    // Literal j of it.
    pub(crate) fn literal(&self, j: usize) -> Option<Literal<'a>>
        ensures { told result ≡ at self.now.literals j }
    {
        self.literals().nth(j)
    }

    // Whether l is one of its literals.
    #[inline(always)]
    pub(crate) fn has(&self, l: &Literal) -> bool
        ensures { result ≡ is_in self.now.literals l.now }
    {
        for m in self.literals() {
            if m.is_same_as(l) {
                return true;
            }
        }
        false
    }

    // Whether number i is its only literal, so that there are no others.
    pub(crate) fn is_alone(&self, i: usize) -> bool
        ensures { result ≡ (length self.now.literals is 1 and i is 0) }
    {
        self.count() == 1 && i == 0
    }

    // Whether each literal of u, but for number i, is one of its literals.
    pub(crate) fn has_others(&self, u: &Line, i: usize) -> bool
        ensures { result ≡ all (is_in self.now.literals) (others u.now.literals i) }
    {
        (0..u.count())
            .zip(u.literals())
            .all(|(j, m)| j == i || self.has(&m))
    }

    // Whether the atom b has a negative literal that shares with l.
    pub(crate) fn denies(&self, l: &Literal, b: usize) -> bool
        ensures { result ≡ denied self.now.literals l.now.said b }
    {
        self.has(&l.denying(b))
    }

    // Whether the atom x is one of those that l is given, or is denied.
    pub(crate) fn covers(&self, l: &Literal, x: usize) -> bool
        ensures { result ≡ (mem x l.now.said.atoms or denied self.now.literals l.now.said x) }
    {
        among(x, l.atoms()) || self.denies(l, x)
    }

    // The value of the statement of l when each of its literals is false.
    pub(crate) fn supposes(&self, l: &Literal) -> Option<bool>
        ensures { told result ≡ supposed self.now.literals l.now.said }
    {
        self.literals()
            .find(|m| m.says_same_as(l))
            .map(|m| !m.positive())
    }
}

// The lines before one, with where each begins.
#[derive(Drop)]
pub struct Earlier<'a> {
    pub words: &'a [u16],
    pub starts: &'a [usize],
    pub count: usize,
}

impl<'a> Model for Earlier<'a> {
    ghost Value = { List papers.Line };

    ghost view = { λ b. many line b.words.now 2 b.count };

    ghost invariant = { λ b. LineStarts b.words.now b.count b.starts.now × Fit line b.words.now 2 b.count };
}

impl<'a> Earlier<'a> {
    // Line u of them.
    pub(crate) fn line(&self, u: usize) -> Option<Line<'a>>
        ensures { told result ≡ at self.now u }
    {
        let q = pick(self.starts, self.count, u)?;
        Some(Line::at(self.words, q))
    }
}
