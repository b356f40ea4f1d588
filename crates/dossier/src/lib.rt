// Reads the dossier: sound, with where each section stands, or the refusal.
#![tactic(auto)]

ghost use Rattle.std.specs.Prelude.{◌≡◌, ◌≤◌, length, IfOk};
ghost use Rattle.words.specs.Answer.{as_step};
ghost use Rattle.dossier.specs.Read as read;
ghost use Rattle.dossier.specs.Read.{clause, marked, operand, formula, entry};
ghost use Rattle.dossier.specs.Found.{asked, as_asked, as_form};

use promise::Layout;
use reply::{Fault, Refusal};
use words::{Item, Limit, Section};

// A credential, or a clause of a witness: head, body count, body; the atoms that it names are below `atoms`.
#[derive(Clone, Copy, Debug, PartialEq, Eq)]
pub struct Clause {
    pub atoms: usize,
}

impl Item for Clause {
    ghost reads = { λ it ws at. as_step (clause it.atoms ws at) };

    // The place after the clause, or its refusal.
    fn read(&self, s: &[u16], at: usize) -> Result<usize, Refusal> {
        words::word_in(s, at, 0..self.atoms, Fault::Atom)?;
        let limit = Limit {
            below: self.atoms,
            fault: Fault::Atom,
        };
        words::list_at(s, at + 1, 0..9, Some(limit))
    }
}

// A clause of the dossier: a mark, and the clause.
#[derive(Clone, Copy, Debug, PartialEq, Eq)]
pub struct Marked {
    pub atoms: usize,
}

impl Item for Marked {
    ghost reads = { λ it ws at. as_step (marked it.atoms ws at) };

    // The place after the mark and its clause, or the refusal.
    fn read(&self, s: &[u16], at: usize) -> Result<usize, Refusal> {
        words::word_in(s, at, 0..2, Fault::Sign)?;
        let clause = Clause { atoms: self.atoms };
        clause.read(s, at + 1)
    }
}

// The formula that begins at `at`, at most d deep, within the words before `end`; lp is the place of its length word.
fn operand_at(
    s: &[u16],
    n: usize,
    lp: usize,
    end: usize,
    d: usize,
    at: usize,
) -> Result<usize, Refusal>
    requires { end ≤ length s.now }
    ensures { result ≡ as_step (operand n lp end d s.now at) }
{
    if d == 0 {
        return Err(words::at_word(Fault::FormulaShape, lp));
    }
    if end <= at {
        return Err(words::at_word(Fault::FormulaShape, lp));
    }
    let x = s[at] as usize;
    if x < n {
        return Ok(at + 1);
    }
    if x < 256 {
        return Err(words::at_word(Fault::Atom, at));
    }
    if x == 256 {
        return Ok(at + 1);
    }
    if x == 257 {
        return operand_at(s, n, lp, end, d - 1, at + 1);
    }
    if 259 < x {
        return Err(words::at_word(Fault::FormulaWord, at));
    }
    let p = operand_at(s, n, lp, end, d - 1, at + 1)?;
    operand_at(s, n, lp, end, d - 1, p)
}

// The whole formula, at most 16 deep. One that begins with an atom is that atom, and nothing has to be walked.
fn whole_at(s: &[u16], n: usize, lp: usize, end: usize, at: usize) -> Result<usize, Refusal>
    requires { end ≤ length s.now }
    ensures { result ≡ as_step (operand n lp end 16 s.now at) }
{
    if at < end {
        let x = s[at] as usize;
        if x < n {
            return Ok(at + 1);
        }
    }
    operand_at(s, n, lp, end, 16, at)
}

// A formula: its length, and exactly so many words.
fn formula_at(s: &[u16], at: usize, n: usize) -> Result<usize, Refusal>
    ensures { result ≡ as_step (formula n s.now at) }
{
    let len = words::word_in(s, at, 1..65, Fault::Limits)?;
    let p = at + 1;
    if s.len() - p < len {
        return Err(words::at_end(s));
    }
    let end = p + len;
    let q = whole_at(s, n, at, end, p)?;
    if q == end {
        Ok(q)
    } else {
        Err(words::at_word(Fault::FormulaShape, at))
    }
}

// A probe or the secret: its credentials, and its formula; the credentials that it names are below `creds`, the atoms below `atoms`.
#[derive(Clone, Copy, Debug, PartialEq, Eq)]
pub struct Entry {
    pub atoms: usize,
    pub creds: usize,
}

impl Item for Entry {
    ghost reads = { λ it ws at. as_step (entry it.atoms it.creds ws at) };

    // The place after the entry, or its refusal.
    fn read(&self, s: &[u16], at: usize) -> Result<usize, Refusal> {
        let limit = Limit {
            below: self.creds,
            fault: Fault::Credential,
        };
        let p = words::list_at(s, at, 0..33, Some(limit))?;
        formula_at(s, p, self.atoms)
    }
}

// The probes and the secret, whose sections begin at p, and no word after them: how many probes, and where the secret's section begins.
fn asked_after(s: &[u16], p: usize, entry: Entry) -> Result<Section, Refusal>
    requires { (p ≤ length s.now) × (entry.atoms ≤ 256) }
    ensures { (result ≡ as_asked p (asked entry.atoms entry.creds s.now p)) × IfOk result (λ x. x.next ≤ length s.now) }
{
    let probes = words::section_after(s, p, 0..65, &entry)?;
    words::last_section(s, probes.next, 1..2, &entry)?;
    Ok(probes)
}

// The whole dossier: where its sections stand.
pub fn dossier(words: &[u16]) -> Result<Layout, Refusal>
    ensures { result ≡ as_form (read.dossier words.now) }
{
    let labels = words::list_at(words, 0, 1..65, None)?;
    let atoms = labels - 1;
    let clauses = words::section_after(words, labels, 0..129, &Marked { atoms })?;
    let creds = words::section_after(words, clauses.next, 0..33, &Clause { atoms })?;
    let entry = Entry {
        atoms,
        creds: creds.count,
    };
    let probes = asked_after(words, creds.next, entry)?;
    Ok(Layout {
        atoms,
        clauses: labels + 1,
        nclauses: clauses.count,
        creds: clauses.next + 1,
        ncreds: creds.count,
        probes: creds.next + 1,
        nprobes: probes.count,
        secret: probes.next + 1,
    })
}
