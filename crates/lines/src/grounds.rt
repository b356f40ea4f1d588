// What the rules stand on.

ghost use Rattle.std.specs.Prelude.{◌≡◌, ◌+◌, ◌≤◌, length, IfSome, option_map};
ghost use Rattle.meaning.specs.Tests.{at};
ghost use Rattle.meaning.specs.Looks.{aim};
ghost use Rattle.meaning.specs.Policy as policies;
ghost use Rattle.meaning.specs.Papers as papers;
ghost use Rattle.meaning.specs.Rules.{value, ◌gives◌};
ghost use Rattle.promise.specs.Clause.{clause_of};
ghost use Rattle.promise.specs.Formula.{entry_of, FormulaFits};
ghost use Rattle.promise.specs.Layout.{dossier_at};
ghost use Rattle.lines.specs.Named.{told};
ghost use Rattle.lines.specs.Ready.{Ready};
ghost use Rattle.lines.specs.Codes.{entry_code, dossier_code};

use crate::line::Line;
use crate::list::{part, pick};
use crate::value::{Supposed, gives};
use promise::{ClauseAt, EntryAt, Layout, clause_at, entry_at, marked_at, value_at, word};
use std::marker::Model;

// A clause or a credential.
#[derive(Drop)]
pub(crate) struct Clause<'a> {
    words: &'a [u16],
    at: ClauseAt,
}

impl<'a> Model for Clause<'a> {
    ghost Value = { policies.Clause };

    ghost view = { λ c. clause_of c.words.now c.at };

    ghost invariant = { λ c. c.at.body + c.at.count ≤ length c.words.now };
}

impl<'a> Clause<'a> {
    // Its head.
    pub(crate) fn head(&self) -> usize
        ensures { result ≡ self.now.head }
    {
        self.at.head
    }

    // The atoms of its body.
    pub(crate) fn body(&self) -> &'a [u16]
        ensures { result.now ≡ self.now.body }
    {
        part(self.words, self.at.body, self.at.count)
    }
}

// A clause of the dossier with its mark.
#[derive(Drop)]
pub(crate) struct Marked<'a> {
    pub visible: bool,
    pub clause: Clause<'a>,
}

impl<'a> Model for Marked<'a> {
    ghost Value = { papers.Marked };

    ghost view = { λ m. record { visible = m.visible; clause = m.clause } };
}

// A probe or the secret.
#[derive(Drop)]
pub(crate) struct Entry<'a> {
    words: &'a [u16],
    atoms: usize,
    at: EntryAt,
}

impl<'a> Model for Entry<'a> {
    ghost Value = { papers.Entry };

    ghost coded = { entry_code };

    ghost view = { λ e. entry_of e.words.now e.at };

    ghost invariant = { λ e. (e.at.creds + e.at.count ≤ length e.words.now) × FormulaFits e.atoms 16 e.words.now e.at.formula };
}

impl<'a> Entry<'a> {
    // Whether its formula has the value b when each literal of the line is false.
    pub(crate) fn gives(&self, line: &Line, b: bool) -> bool
        ensures { result ≡ (value line.now.literals self.now.creds self.now.formula gives b) }
    {
        let supposed = Supposed {
            line,
            creds: part(self.words, self.at.creds, self.at.count),
            atoms: self.atoms,
        };
        let (value, _) = value_at(&supposed, self.words, self.at.formula, 16);
        gives(value, b)
    }
}

// The dossier's words as laid out, where each clause, credential and probe begins, each probe's answer, and the value of the secret that a proof shows.
#[derive(Drop)]
pub struct Grounds<'a> {
    pub words: &'a [u16],
    pub layout: Layout,
    pub clauses: &'a [usize],
    pub creds: &'a [usize],
    pub probes: &'a [usize],
    pub answers: &'a [u16],
    pub goal: bool,
}

impl<'a> Model for Grounds<'a> {
    ghost Value = { papers.Dossier };

    ghost coded = { dossier_code };

    ghost view = { λ g. dossier_at g.words.now g.layout };

    ghost invariant = { λ g. Ready g.words.now g.layout g.clauses.now g.creds.now g.probes.now g.answers.now g.goal };
}

impl<'a> Grounds<'a> {
    // Clause i of the dossier.
    pub(crate) fn clause(&self, i: usize) -> Option<Marked<'a>>
        ensures { told result ≡ at self.now.clauses i }
    {
        let q = pick(self.clauses, self.layout.nclauses, i)?;
        let m = marked_at(self.words, q);
        Some(Marked {
            visible: m.visible,
            clause: Clause {
                words: self.words,
                at: m.clause,
            },
        })
    }

    // Credential c of the dossier.
    pub(crate) fn credential(&self, c: usize) -> Option<Clause<'a>>
        ensures { told result ≡ at self.now.creds c }
    {
        let q = pick(self.creds, self.layout.ncreds, c)?;
        Some(Clause {
            words: self.words,
            at: clause_at(self.words, q),
        })
    }

    // Probe i of the dossier, and the answer to it in the dossier's policy.
    pub(crate) fn probe(&self, i: usize) -> Option<(Entry<'a>, bool)>
        ensures probe { told (option_map (λ p. p.0) result) ≡ at self.now.probes i }
        ensures answer { IfSome result (λ p. p.1 ≡ papers.answer self.now (papers.policy self.now) p.0) }
    {
        let q = pick(self.probes, self.layout.nprobes, i)?;
        let entry = Entry {
            words: self.words,
            atoms: self.layout.atoms,
            at: entry_at(self.words, q),
        };
        Some((entry, word(self.answers, i) == 1))
    }

    // The secret of the dossier.
    pub(crate) fn secret(&self) -> Entry<'a>
        ensures { result ≡ self.now.secret }
    {
        Entry {
            words: self.words,
            atoms: self.layout.atoms,
            at: entry_at(self.words, self.layout.secret),
        }
    }

    // The value that the secret has in the dossier's policy.
    pub(crate) fn aim(&self) -> bool
        ensures { result ≡ aim self.now }
    {
        self.goal
    }
}
