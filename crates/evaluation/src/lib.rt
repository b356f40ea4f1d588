// What a policy makes true, on the clauses held as words, and an entry's answer in it.
#![tactic(auto)]

ghost use Rattle.std.specs.Prelude.{◌≡◌, ◌++◌, ◌==◌, ℕ, ◌+◌, ◌≤◌, ◌<◌, List, length, drop, replicate};
ghost use Rattle.std.specs.List.{list_any};
ghost use Rattle.meaning.specs.Tests.{◌∈◌, ◌is◌, same, all, any};
ghost use Rattle.meaning.specs.Policy.{first_round};
ghost use Rattle.promise.specs.Place.{part, rows, filled};
ghost use Rattle.promise.specs.Thing.{Things, clause_next, marked_next};
ghost use Rattle.promise.specs.Formula.{FormulaFits, entry_at, entry_of, EntryFits};
ghost use Rattle.promise.specs.Clause.{clause_of};
ghost use Rattle.promise.specs.Code.{bit};
ghost use Rattle.promise.specs.Layout.{ProbeStarts};
ghost use Rattle.evaluation.specs.Table.{has, before, fire_one, fire_all, in_table};
ghost use Rattle.evaluation.specs.Fired.{fired_all, ClauseFires, clause_fired, MarkedFires, marked_fired, named_end, NamedFires, named_fired};
ghost use Rattle.evaluation.specs.Which.{Fires, Ready};
ghost use Rattle.evaluation.specs.Posed.{Posed};
ghost use Rattle.evaluation.specs.Answer.{answer_word};
ghost use Rattle.evaluation.specs.Held.{last_of, read_in};
ghost use Rattle.evaluation.specs.Policy.{policy_in, joined_in, table_in, answer_in_policy, round_in, Asked, Keeps, kept_at, last_kept};
ghost use Rattle.evaluation.specs.declared.Which.TheVariants.{Own};

use promise::{ClauseAt, EntryAt, Layout, Valuation};
use std::marker::Model;

// Which policy is evaluated: the dossier's own, or its visible clauses with the certificate's so many.
#[derive(Clone, Copy)]
pub enum Which {
    Own,
    Tried(usize),
}

// A policy as it lies in the words: the dossier's words as laid out, where each of its credentials begins, the certificate's words, in
// which the witness that is tried lies, and which policy of them it is. A contract sees it without the table of places.
#[derive(Drop)]
pub struct PolicyAt<'a> {
    pub words: &'a [u16],
    pub layout: Layout,
    pub creds: &'a [usize],
    pub witness: &'a [u16],
    pub which: Which,
}

impl<'a> Model for PolicyAt<'a> {
    ghost Value = { Posed };

    ghost view = { λ p. record { words = p.words.now; layout = p.layout; witness = p.witness.now; which = p.which } };

    ghost invariant = { λ p. Ready p.words.now p.layout p.creds.now p.witness.now p.which };
}

// What holds at an entry, for each atom the number of the round that first adds it: kept for the next entry.
#[derive(Clone, Copy)]
pub struct Kept {
    pub entry: usize,
    pub table: [u8; 64],
}

// ---- firing: a table has for each atom the number of the round that added it, or 0

// Whether atom a is in the table.
fn is_there(table: &[u8], a: usize) -> bool
    requires { a < length table.now }
    ensures { result ≡ has table.now a }
{
    table[a] != 0
}

// Whether it was there before this round.
fn was_there(table: &[u8], a: usize, round: u8) -> bool
    requires { a < length table.now }
    ensures { result ≡ before round table.now a }
{
    is_there(table, a) && table[a] < round
}

// Whether each of the k atoms from p on was there before this round.
fn body_holds(s: &[u16], p: usize, k: usize, round: u8, table: &[u8]) -> bool
    requires { (p + k ≤ length s.now) × ((x : ℕ) → x ∈ part s.now p k → x < length table.now) }
    ensures { result ≡ all (before round table.now) (part s.now p k) }
{
    for x in &s[p..p + k] {
        if !was_there(table, usize::from(*x), round) {
            return false;
        }
    }
    true
}

// The clause adds its head, with the round's number, where that is not there and its body was before the round.
fn fire(s: &[u16], c: ClauseAt, round: u8, table: &mut [u8])
    requires { Fires (length table.old) s.now c }
    ensures { table.new ≡ fire_one round (clause_of s.now c) table.old }
{
    if !is_there(table, c.head) && body_holds(s, c.body, c.count, round, table) {
        table[c.head] = round;
    }
}

// What is fired one after the other, each at a place of the words.
trait Fireable {
    // Where the next stands, the table after a round's firing of one, and what that asks, of tables so long.
    ghost next: { Self → List ℕ → ℕ → ℕ };

    ghost fired: { Self → ℕ → List ℕ → ℕ → List ℕ → List ℕ };

    ghost ok: { Self → ℕ → List ℕ → ℕ → Type 0 };

    // Fires the one at `at`, and answers the place of the next.
    fn fire_at(&self, s: &[u16], at: usize, round: u8, table: &mut [u8]) -> usize
        requires { ok self.now (length table.old) s.now at }
        ensures { (result ≡ next self.now s.now at) × (table.new ≡ fired self.now round s.now at table.old) };
}

// The clauses of a witness.
#[derive(Clone, Copy)]
struct Clauses;

impl Fireable for Clauses {
    ghost next = { λ _. clause_next };

    ghost fired = { λ _. clause_fired };

    ghost ok = { λ _. ClauseFires };

    fn fire_at(&self, s: &[u16], at: usize, round: u8, table: &mut [u8]) -> usize {
        let c = promise::clause_at(s, at);
        fire(s, c, round, table);
        c.next
    }
}

// The clauses of the dossier: all of them, or the visible ones.
#[derive(Clone, Copy)]
struct Marked {
    every: bool,
}

impl Fireable for Marked {
    ghost next = { λ _. marked_next };

    ghost fired = { λ it. marked_fired it.every };

    ghost ok = { λ _. MarkedFires };

    fn fire_at(&self, s: &[u16], at: usize, round: u8, table: &mut [u8]) -> usize {
        let m = promise::marked_at(s, at);
        if self.every || m.visible {
            fire(s, m.clause, round, table);
        }
        m.clause.next
    }
}

// Credentials that their numbers name; the table has where each begins.
#[derive(Clone, Copy)]
struct Named<'a> {
    creds: &'a [usize],
}

impl Fireable for Named<'_> {
    ghost next = { λ _. named_end };

    ghost fired = { λ it. named_fired it.creds.now };

    ghost ok = { λ it. NamedFires it.creds.now };

    fn fire_at(&self, s: &[u16], at: usize, round: u8, table: &mut [u8]) -> usize {
        let i = promise::word(s, at);
        fire(s, promise::clause_at(s, self.creds[i]), round, table);
        at + 1
    }
}

// Fires the k from p on, one after the other.
fn fire_each<F: Fireable>(each: &F, s: &[u16], p: usize, k: usize, round: u8, table: &mut [u8])
    requires { Things (F.next each.now) (F.ok each.now (length table.old)) s.now p k }
    ensures { table.new ≡ fired_all (F.next each.now s.now) (F.fired each.now round s.now) p k table.old }
{
    let mut at = p;
    for _ in 0..k {
        at = each.fire_at(s, at, round, table);
    }
}

// Whether this round added an atom.
fn adds(table: &[u8], round: u8) -> bool
    ensures { result ≡ list_any (λ x. x == round) table.now }
{
    table.iter().any(|x| *x == round)
}

// No atoms.
fn none() -> [u8; 64]
    ensures { result ≡ replicate 64 0 }
{
    [0u8; 64]
}

// Writes the numbers to the start of the table, which is as long or longer; the words beyond stay.
pub fn widen(src: &[u8], dst: &mut [u16])
    requires { length src.now ≤ length dst.old }
    ensures { dst.new ≡ src.now ++ drop (length src.now) dst.old }
{
    for (i, x) in src.iter().enumerate() {
        dst[i] = u16::from(*x);
    }
}

// ---- formulas

// The atoms that are there, in a table that has them alone.
#[derive(Clone, Copy)]
struct Present<'a> {
    table: &'a [u8],
}

impl Valuation for Present<'_> {
    type Value = bool;

    ghost reading = { λ v. in_table v.table.now };

    ghost atoms = { λ v. length v.table.now };

    fn truth(&self) -> bool {
        true
    }

    fn atom(&self, x: usize) -> bool {
        is_there(self.table, x)
    }

    fn negated(&self, a: bool) -> bool {
        !a
    }

    fn both(&self, a: bool, b: bool) -> bool {
        a && b
    }

    fn either(&self, a: bool, b: bool) -> bool {
        a || b
    }
}

// The answer of the entry at p, by the table of what holds. For an atom nothing has to be walked.
pub fn answer_in(d: &[u16], p: usize, table: &[u8]) -> bool
    requires { ((entry_at d.now p).next ≤ length d.now) × FormulaFits (length table.now) 16 d.now (entry_at d.now p).formula }
    ensures { result ≡ read_in d.now p table.now }
{
    let e = promise::entry_at(d, p);
    let a = promise::word(d, e.formula);
    if a < 256 {
        return is_there(table, a);
    }
    let (holds, _) = promise::value_at(&Present { table }, d, e.formula, 16);
    holds
}

// An answer as a word.
pub fn word_of(a: bool) -> u16
    ensures { result ≡ bit a }
{
    u16::from(a)
}

// Where the last of the k things of the table begins; 0 if there is none.
pub fn last_of(table: &[usize], k: usize) -> usize
    requires { k ≤ length table.now }
    ensures { result ≡ last_of table.now k }
{
    if k == 0 {
        return 0;
    }
    table[k - 1]
}

// ---- the policy

impl<'a> PolicyAt<'a> {
    // Fires the clauses of the policy.
    fn fire_policy(&self, round: u8, table: &mut [u8])
        requires { length table.old ≡ self.now.layout.atoms }
        ensures { table.new ≡ fire_all round (policy_in self.now) table.old }
    {
        let c = self.layout.clauses;
        let k = self.layout.nclauses;
        match self.which {
            Which::Own => {
                fire_each(&Marked { every: true }, self.words, c, k, round, table);
            }
            Which::Tried(j) => {
                fire_each(&Clauses, self.witness, 2, j, round, table);
                fire_each(&Marked { every: false }, self.words, c, k, round, table);
            }
        }
    }

    // One round over the policy joined with the entry's credentials. Answers whether it added an atom.
    fn one_round(&self, e: EntryAt, round: u8, table: &mut [u8]) -> bool
        requires { Asked self.now e × (length table.old ≡ self.now.layout.atoms) }
        ensures { (table.new ≡ fire_all round (joined_in self.now e) table.old) × (result ≡ any (λ x. x is round) table.new) }
    {
        self.fire_policy(round, table);
        fire_each(
            &Named { creds: self.creds },
            self.words,
            e.creds,
            e.count,
            round,
            table,
        );
        adds(table, round)
    }

    // The rounds, on a table with no atoms: each atom gets the number of the round that first adds it. It stops at a round that adds none.
    fn run(&self, e: EntryAt, table: &mut [u8])
        requires { Asked self.now e × (table.old ≡ replicate self.now.layout.atoms 0) }
        ensures { table.new ≡ rows (first_round (joined_in self.now e)) self.now.layout.atoms }
    {
        prove!(table.len() == self.layout.atoms);
        for done in 0..64 {
            if !self.one_round(e, done + 1, table) {
                return;
            }
        }
    }

    // For each atom the number of the round that first adds it, 0 if none does; and 0 beyond the atoms.
    fn first_rounds(&self, e: EntryAt) -> [u8; 64]
        requires { Asked self.now e }
        ensures { result ≡ table_in self.now e }
    {
        let n = self.layout.atoms;
        let mut table = none();
        self.run(e, &mut table[..n]);
        table
    }

    // The answer of the entry at p.
    pub fn answer_at(&self, p: usize) -> bool
        requires { EntryFits self.now.layout.atoms self.now.layout.ncreds self.now.words p }
        ensures { result ≡ answer_in_policy self.now p }
    {
        let n = self.layout.atoms;
        let table = self.first_rounds(promise::entry_at(self.words, p));
        answer_in(self.words, p, &table[..n])
    }

    // Whether e has the credentials of the entry at `last`.
    fn alike(&self, last: usize, e: EntryAt) -> bool
        requires { ((entry_at self.now.words last).next ≤ length self.now.words) × (e.creds + e.count ≤ length self.now.words) }
        ensures { result ≡ same (entry_of self.now.words (entry_at self.now.words last)).creds (entry_of self.now.words e).creds }
    {
        let f = promise::entry_at(self.words, last);
        promise::same_words(self.words, f.creds, f.count, self.words, e.creds, e.count)
    }

    // What holds at the entry at p. What is kept of another entry serves again if that has the same credentials.
    pub fn known(&self, kept: Option<Kept>, p: usize) -> Kept
        requires { Keeps self.now kept × EntryFits self.now.layout.atoms self.now.layout.ncreds self.now.words p }
        ensures { result ≡ kept_at self.now p }
    {
        let e = promise::entry_at(self.words, p);
        if let Some(last) = kept {
            if self.alike(last.entry, e) {
                let table = last.table;
                return Kept { entry: p, table };
            }
        }
        let table = self.first_rounds(e);
        Kept { entry: p, table }
    }

    // For each atom the number of the round that first adds it with the credentials of the entry at p, 0 if none does,
    // from the table's start; the words beyond stay.
    pub fn rounds_at(&self, p: usize, table: &mut [u16])
        requires { EntryFits self.now.layout.atoms self.now.layout.ncreds self.now.words p × (self.now.layout.atoms ≤ length table.old) }
        ensures { table.new ≡ filled (round_in self.now p) self.now.layout.atoms table.old }
    {
        let n = self.layout.atoms;
        let found = self.first_rounds(promise::entry_at(self.words, p));
        widen(&found[..n], table);
    }

    // Writes every probe's answer in the dossier's own policy to the table. Answers what holds at the last probe, if there is one.
    fn answer_probes(&self, probes: &[usize], table: &mut [u16]) -> Option<Kept>
        requires { (self.now.which ≡ Own) × ProbeStarts self.now.words self.now.layout probes.now × (self.now.layout.nprobes ≤ length table.old) }
        ensures { (table.new ≡ filled (answer_word self.now.words self.now.layout) self.now.layout.nprobes table.old)
            × (result ≡ last_kept self.now probes.now self.now.layout.nprobes) × Keeps self.now result }
    {
        let n = self.layout.atoms;
        let mut kept = None;
        for i in 0..self.layout.nprobes {
            let known = self.known(kept, probes[i]);
            table[i] = u16::from(answer_in(self.words, probes[i], &known.table[..n]));
            kept = Some(known);
        }
        kept
    }

    // Every probe's answer in the dossier's own policy, 0 or 1, from the table's start; the words beyond stay.
    pub fn answers(&self, probes: &[usize], table: &mut [u16])
        requires { (self.now.which ≡ Own) × ProbeStarts self.now.words self.now.layout probes.now × (self.now.layout.nprobes ≤ length table.old) }
        ensures { table.new ≡ filled (answer_word self.now.words self.now.layout) self.now.layout.nprobes table.old }
    {
        self.answer_probes(probes, table);
    }

    // The same; and tells the secret's answer in the dossier's own policy.
    pub fn own_answers(&self, probes: &[usize], table: &mut [u16]) -> bool
        requires { (self.now.which ≡ Own) × ProbeStarts self.now.words self.now.layout probes.now × (self.now.layout.nprobes ≤ length table.old) }
        ensures { (table.new ≡ filled (answer_word self.now.words self.now.layout) self.now.layout.nprobes table.old) × (result ≡ answer_in_policy self.now self.now.layout.secret) }
    {
        let kept = self.answer_probes(probes, table);
        let n = self.layout.atoms;
        let known = self.known(kept, self.layout.secret);
        answer_in(self.words, self.layout.secret, &known.table[..n])
    }
}
