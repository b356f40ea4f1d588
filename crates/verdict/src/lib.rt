// The judgement of two sound papers.
#![tactic(auto)]

ghost use Rattle.std.specs.Prelude.{◌≡◌, not, ◌≤◌, ◌<◌, ℕ, List, length, get_or};
ghost use Rattle.meaning.specs.Tests.{◌is◌, agree, choose, lowest};
ghost use Rattle.meaning.specs.Looks.{aim};
ghost use Rattle.meaning.specs.Papers as papers;
ghost use Rattle.meaning.specs.Verdict as meant;
ghost use Rattle.meaning.specs.Rules.{line_follows};
ghost use Rattle.promise.specs.Place.{many, Fit};
ghost use Rattle.promise.specs.Code.{bit};
ghost use Rattle.promise.specs.Formula.{FormulaFits, entry_at};
ghost use Rattle.promise.specs.Layout.{dossier_at, Laid, certificate_at, Proposed, ProbeStarts};
ghost use Rattle.promise.specs.Line.{line_at, line, LineFits};
ghost use Rattle.promise.specs.Thing.{line_next};
ghost use Rattle.promise.specs.declared.Layout as declared;
ghost use Rattle.evaluation.specs.Held.{read_in};
ghost use Rattle.lines.specs.Supposing.{untold};
ghost use Rattle.lines.specs.Ready.{LineStarts};
ghost use Rattle.reply.specs.Answer.{accepted};
ghost use Rattle.reply.specs.Numbers.{number};
ghost use Rattle.reply.specs.declared.Paper.TheVariants as paper;
ghost use Rattle.reply.specs.declared.Verdict.TheVariants as verdict;
ghost use Rattle.verdict.specs.Told.{showing, reply_at, Says, size_of, Told};
ghost use Rattle.verdict.specs.Trial.{OnTrial, dossier_on, witness_on, rounds_there};

use evaluation::{PolicyAt, Which};
use lines::{Earlier, Grounds, Line};
use promise::{ClauseAt, EntryAt, Layout, LineAt, MarkedAt, Proposal, Thing};
use reply::{Fault, Paper, Reply, Verdict};

// An acceptance.
fn accepting(verdict: Verdict) -> Reply
    ensures { result ≡ accepted verdict }
{
    Reply {
        verdict,
        paper: Paper::Certificate,
        place: 0,
        count: 0,
    }
}

// The refusal that shows the thing at p.
fn refusing<T: Thing>(fault: Fault, paper: Paper, s: &[u16], p: usize) -> Reply
    requires { T.ok s.now p × (p ≤ T.next s.now p) }
    ensures { result ≡ showing (number fault) paper T.next s.now p }
{
    Reply {
        verdict: Verdict::Refused(u16::from(fault)),
        paper,
        place: p,
        count: T::next_at(s, p) - p,
    }
}

// Whether probe i, which stands at p, is answered by the table of what holds there as the dossier's policy does, which `told` has.
fn probe_agrees(d: &[u16], told: &[u16], i: usize, p: usize, table: &[u8]) -> bool
    requires { (i < length told.now) × ((entry_at d.now p).next ≤ length d.now) × FormulaFits (length table.now) 16 d.now (entry_at d.now p).formula }
    ensures { result ≡ (bit (read_in d.now p table.now) is get_or told.now i 0) }
{
    u16::from(evaluation::answer_in(d, p, table)) == told[i]
}

// What the dossier's own policy answers: where each probe begins, each probe's answer, and the secret's value.
#[derive(Clone, Copy)]
struct Answered<'a> {
    probes: &'a [usize],
    told: &'a [u16],
    goal: bool,
}

// The lowest probe that the policy tried for a witness of so many clauses does not answer as the dossier's does. If there is one, the table gets
// the number of the round that first adds each atom there.
fn first_differing(
    tried: &PolicyAt,
    count: usize,
    answered: &Answered,
    rounds: &mut [u16],
) -> Option<usize>
    requires { OnTrial tried.now count answered.now.probes.now answered.now.told.now answered.now.goal × (tried.now.layout.atoms ≤ length rounds.old) }
    ensures { (result ≡ untold (lowest (meant.probe_agrees (dossier_on tried.now) (witness_on tried.now count)) 0 tried.now.layout.nprobes))
        × (rounds.new ≡ rounds_there tried.now.words tried.now.layout tried.now.witness count result rounds.old) }
{
    let n = tried.layout.atoms;
    let mut kept = None;
    for i in 0..tried.layout.nprobes {
        let known = tried.known(kept, answered.probes[i]);
        if !probe_agrees(
            tried.words,
            answered.told,
            i,
            answered.probes[i],
            &known.table[..n],
        ) {
            evaluation::widen(&known.table[..n], rounds);
            return Some(i);
        }
        kept = Some(known);
    }
    None
}

// With every probe answered alike: the secret, which is not to have the value that it has in the dossier's policy.
fn judge_secret(tried: &PolicyAt, count: usize, answered: &Answered, rounds: &mut [u16]) -> Reply
    requires { OnTrial tried.now count answered.now.probes.now answered.now.told.now answered.now.goal × (tried.now.layout.atoms ≤ length rounds.old) }
    ensures { Says tried.now.words tried.now.layout tried.now.witness count (papers.witness (witness_on tried.now count)) (choose
        (agree (papers.answer (dossier_on tried.now) (meant.tried (dossier_on tried.now) (witness_on tried.now count)) (dossier_on tried.now).secret) (not (aim (dossier_on tried.now))))
        meant.opaque meant.secret_kept) rounds.old result rounds.new }
{
    let p = tried.layout.secret;
    if tried.answer_at(p) != answered.goal {
        accepting(Verdict::Opaque)
    } else {
        tried.rounds_at(p, rounds);
        refusing::<EntryAt>(Fault::SecretKept, Paper::Dossier, tried.words, p)
    }
}

// The reply to a witness of so many clauses, for which that policy is tried.
fn judge_witness(tried: &PolicyAt, count: usize, answered: &Answered, rounds: &mut [u16]) -> Reply
    requires { OnTrial tried.now count answered.now.probes.now answered.now.told.now answered.now.goal × (tried.now.layout.atoms ≤ length rounds.old) }
    ensures { Says tried.now.words tried.now.layout tried.now.witness count (papers.witness (witness_on tried.now count))
        (meant.judge (dossier_on tried.now) (papers.witness (witness_on tried.now count))) rounds.old result rounds.new }
{
    match first_differing(tried, count, answered, rounds) {
        Some(j) => refusing::<EntryAt>(
            Fault::ProbeDiffers,
            Paper::Dossier,
            tried.words,
            answered.probes[j],
        ),
        None => judge_secret(tried, count, answered, rounds),
    }
}

// The lowest of k lines that does not follow; `starts` has where each begins.
fn first_failing(grounds: &Grounds, s: &[u16], starts: &[usize], k: usize) -> Option<usize>
    requires { LineStarts s.now k starts.now × Fit line s.now 2 k }
    ensures { result ≡ untold (lowest (line_follows grounds.now (many line s.now 2 k)) 0 k) }
{
    for j in 0..k {
        let before = Earlier {
            words: s,
            starts,
            count: j,
        };
        let line = Line::at(s, starts[j]);
        if !lines::line_follows(grounds, &before, &line) {
            return Some(j);
        }
    }
    None
}

// With every line following: the last, at p.
fn judge_last(s: &[u16], p: usize) -> Reply
    requires { LineFits s.now p }
    ensures { result ≡ choose ((line_at s.now p).count is 0) (accepted verdict.Detectable) (showing 17 paper.Certificate line_next s.now p) }
{
    if promise::line_at(s, p).count == 0 {
        accepting(Verdict::Detectable)
    } else {
        refusing::<LineAt>(Fault::LastNotEmpty, Paper::Certificate, s, p)
    }
}

// A proof of k lines, for which there is room.
fn judge_proof<const ROOM: usize>(grounds: &Grounds, s: &[u16], k: usize) -> Reply
    requires { (1 ≤ k) × (k ≤ ROOM) × (ROOM ≤ 1024) × Fit line s.now 2 k }
    ensures { (d : List ℕ) (o : declared.Layout) → result ≡ reply_at d o s.now k (meant.judge grounds.now (papers.proof (many line s.now 2 k))) }
{
    let mut starts = [0usize; ROOM];
    promise::starts::<LineAt>(s, 2, &mut starts[..k]);
    match first_failing(grounds, s, &starts, k) {
        Some(j) => refusing::<LineAt>(Fault::LineFails, Paper::Certificate, s, starts[j]),
        None => judge_last(s, starts[k - 1]),
    }
}

// The proof of k lines in the certificate's words, with what only a proof needs; it is to show the value that the secret has in the dossier's policy.
// A short proof has a short table for its lines.
fn judge_lines(own: &PolicyAt, answered: &Answered, k: usize) -> Reply
    requires { ProbeStarts own.now.words own.now.layout answered.now.probes.now × Told own.now.words own.now.layout answered.now.told.now × (answered.now.goal ≡ aim (dossier_on own.now)) × (1 ≤ k) × (k ≤ 1024) × Fit line own.now.witness 2 k }
    ensures { result ≡ reply_at own.now.words own.now.layout own.now.witness k (meant.judge (dossier_on own.now) (papers.proof (many line own.now.witness 2 k))) }
{
    let mut clauses = [0usize; 128];
    promise::starts::<MarkedAt>(
        own.words,
        own.layout.clauses,
        &mut clauses[..own.layout.nclauses],
    );
    let grounds = Grounds {
        words: own.words,
        layout: own.layout,
        clauses: &clauses,
        creds: own.creds,
        probes: answered.probes,
        answers: answered.told,
        goal: answered.goal,
    };
    if k <= 64 {
        return judge_proof::<64>(&grounds, own.witness, k);
    }
    judge_proof::<1024>(&grounds, own.witness, k)
}

// The judgement of two sound papers: d has the layout o, and c has that proposal. `told` is blank, then has the dossier's answers, and `goal` the secret's.
// On 14 and 15 `rounds` gets the number of the round that first adds each atom, in the policy tried with the credentials of that entry.
pub fn judge_sound(d: &[u16], o: Layout, c: &[u16], proposal: Proposal, rounds: &mut [u16]) -> Reply
    requires { Laid d.now o × Proposed o.atoms c.now proposal × (o.atoms ≤ length rounds.old) }
    ensures { Says d.now o c.now (size_of proposal) (certificate_at o.atoms c.now proposal)
        (meant.judge (dossier_at d.now o) (certificate_at o.atoms c.now proposal)) rounds.old result rounds.new }
{
    let mut creds = [0usize; 32];
    let mut probes = [0usize; 64];
    let mut told = [0u16; 64];
    promise::starts::<ClauseAt>(d, o.creds, &mut creds[..o.ncreds]);
    promise::starts::<EntryAt>(d, o.probes, &mut probes[..o.nprobes]);
    let own = PolicyAt {
        words: d,
        layout: o,
        creds: &creds,
        witness: c,
        which: Which::Own,
    };
    let goal = own.own_answers(&probes, &mut told);
    let answered = Answered {
        probes: &probes,
        told: &told,
        goal,
    };
    match proposal {
        Proposal::Witness(count) => {
            let tried = PolicyAt {
                words: d,
                layout: o,
                creds: &creds,
                witness: c,
                which: Which::Tried(count),
            };
            judge_witness(&tried, count, &answered, rounds)
        }
        Proposal::Proof(k) => judge_lines(&own, &answered, k),
    }
}
