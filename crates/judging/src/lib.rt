// The judge's two entries.
#![tactic(auto)]

ghost use Rattle.std.specs.Prelude.{◌≡◌, List, ℕ, length};
ghost use Rattle.reply.specs.Answer as said;
ghost use Rattle.reply.specs.Numbers.{number};
ghost use Rattle.judging.specs.Judge.{judge_of, Sound, Offered};
ghost use Rattle.judging.specs.Rounds.{rounds_after};
ghost use Rattle.judging.specs.Answers.{answers_of, table_after};
ghost use Rattle.judging.specs.Table.{Row, AnswersRow};
ghost use Rattle.reply.specs.Shown.{shown_of, shown_by};

use evaluation::{PolicyAt, Which};
use promise::{ClauseAt, EntryAt, Layout, Proposal};
use reply::{Fault, Paper, Refusal, Reply, Verdict};

// A lent table is too short: the refusal shows no word, at the dossier's start.
const SHORT_TABLE: Refusal = Refusal {
    fault: Fault::ShortTable,
    place: 0,
    count: 0,
};

// The reply that tells a refusal of a paper.
fn refused(refusal: Refusal, paper: Paper) -> Reply
    ensures { result ≡ said.refused (number refusal.fault) paper refusal.place refusal.count }
{
    Reply {
        verdict: Verdict::Refused(u16::from(refusal.fault)),
        paper,
        place: refusal.place,
        count: refusal.count,
    }
}

// With both papers sound: 18, then meaning.
fn judge_papers(d: &[u16], o: Layout, c: &[u16], x: Proposal, rounds: &mut [u16]) -> Reply
    requires { Sound d.now o × Offered o.atoms o.ncreds c.now x }
    ensures { (result ≡ judge_of d.now c.now (length rounds.old)) × (rounds.new ≡ rounds_after d.now c.now rounds.old) }
{
    if rounds.len() < o.atoms {
        return refused(SHORT_TABLE, Paper::Dossier);
    }
    verdict::judge_sound(d, o, c, x, rounds)
}

// With the dossier sound: the certificate's form, then 18 and meaning.
fn judge_with(d: &[u16], o: Layout, c: &[u16], rounds: &mut [u16]) -> Reply
    requires { Sound d.now o }
    ensures { (result ≡ judge_of d.now c.now (length rounds.old)) × (rounds.new ≡ rounds_after d.now c.now rounds.old) }
{
    match certificate::certificate(c, o.atoms, o.ncreds) {
        Err(refusal) => refused(refusal, Paper::Certificate),
        Ok(x) => judge_papers(d, o, c, x, rounds),
    }
}

// The reply to a dossier and a certificate, whatever their words. On 14 and 15 the table gets, for each atom, the number of the round that
// first adds it, 0 if none does, for the witness with the visible clauses and the credentials of that probe or of the secret; words beyond
// stay. Every other reply leaves the table as it was.
pub fn judge(dossier: &[u16], certificate: &[u16], rounds: &mut [u16]) -> Reply
    ensures { Row dossier.now certificate.now rounds.old result (shown_of dossier.now certificate.now result) rounds.new }
{
    match dossier::dossier(dossier) {
        Err(refusal) => refused(refusal, Paper::Dossier),
        Ok(o) => judge_with(dossier, o, certificate, rounds),
    }
}

// With the dossier sound: 18, then the answers.
fn answers_with(d: &[u16], o: Layout, table: &mut [u16]) -> Result<usize, Reply>
    requires { Sound d.now o }
    ensures { (result ≡ answers_of d.now table.old) × (table.new ≡ table_after d.now table.old) }
{
    let n = o.nprobes;
    if table.len() < n {
        return Err(refused(SHORT_TABLE, Paper::Dossier));
    }
    let mut creds = [0usize; 32];
    let mut probes = [0usize; 64];
    promise::starts::<ClauseAt>(d, o.creds, &mut creds[..o.ncreds]);
    promise::starts::<EntryAt>(d, o.probes, &mut probes[..n]);
    let own = PolicyAt {
        words: d,
        layout: o,
        creds: &creds,
        witness: d,
        which: Which::Own,
    };
    own.answers(&probes, table);
    Ok(n)
}

// Every probe's answer, 0 or 1, from the table's start; words beyond stay. A refusal is about the dossier and leaves the table as it was; `shown` shows its words, whatever
// certificate it is handed beside the dossier.
pub fn answers(dossier: &[u16], table: &mut [u16]) -> Result<usize, Reply>
    ensures { (c : List ℕ) → AnswersRow dossier.now table.old result (shown_by dossier.now c result) table.new }
{
    match dossier::dossier(dossier) {
        Err(refusal) => Err(refused(refusal, Paper::Dossier)),
        Ok(o) => answers_with(dossier, o, table),
    }
}
