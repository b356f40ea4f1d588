// The rules. Rules 1 to 7 do not look at the lines before, nor 4 and 8 at the dossier: what they promise holds for any.
#![tactic(auto, using(crate::proofs::Bools::bools), unfolding(meaning::specs::Rules::follows, meaning::specs::Rules::fires, crate::specs::Asks::covered_cred, crate::specs::Asks::cuts, crate::specs::Asks::withouts, crate::specs::Asks::resolves))]

ghost use Rattle.std.specs.Prelude.{◌≡◌, List};
ghost use Rattle.meaning.specs.Papers as papers;
ghost use Rattle.meaning.specs.Rules.{fires, follows};
ghost use Rattle.lines.specs.Asks.{covered_cred, cuts, withouts, resolves};

use crate::grounds::{Clause, Grounds};
use crate::line::{Earlier, Line, Literal};
use crate::list::among;

// Rule 1: the literals false, the formula of probe i takes the value opposite to its answer.
pub(crate) fn probe_follows(grounds: &Grounds, line: &Line, i: usize) -> bool
    ensures { (e : List papers.Line) → result ≡ follows grounds.now e line.now.literals (papers.probe i) }
{
    let Some((probe, answer)) = grounds.probe(i) else {
        return false;
    };
    probe.gives(line, !answer)
}

// Rule 2: the literals false, the formula of the secret takes the value that it has in the dossier's policy.
pub(crate) fn secret_follows(grounds: &Grounds, line: &Line) -> bool
    ensures { (e : List papers.Line) → result ≡ follows grounds.now e line.now.literals papers.secret }
{
    grounds.secret().gives(line, grounds.aim())
}

// Whether l is positive on the head of c, and each body atom has a negative literal that shares with l.
fn clause_fires(line: &Line, c: &Clause, l: &Literal) -> bool
    ensures { result ≡ fires line.now.literals c.now l.now }
{
    l.positive() && l.atom() == c.head() && c.body().iter().all(|b| line.denies(l, *b as usize))
}

// Rule 3: clause i is visible, and fires for literal j.
pub(crate) fn clause_follows(grounds: &Grounds, line: &Line, i: usize, j: usize) -> bool
    ensures { (e : List papers.Line) → result ≡ follows grounds.now e line.now.literals (papers.clause i j) }
{
    let Some(m) = grounds.clause(i) else {
        return false;
    };
    let Some(l) = line.literal(j) else {
        return false;
    };
    m.visible && clause_fires(line, &m.clause, &l)
}

// Rule 4: literal j is positive, on an atom that it is given.
pub(crate) fn assumed_follows(line: &Line, j: usize) -> bool
    ensures { (D : papers.Dossier) (e : List papers.Line) → result ≡ follows D e line.now.literals (papers.assumed j) }
{
    let Some(l) = line.literal(j) else {
        return false;
    };
    l.positive() && among(l.atom(), l.atoms())
}

// Rule 5: literal j has credential c, which fires for it.
pub(crate) fn credential_follows(grounds: &Grounds, line: &Line, c: usize, j: usize) -> bool
    ensures { (e : List papers.Line) → result ≡ follows grounds.now e line.now.literals (papers.credential c j) }
{
    let Some(d) = grounds.credential(c) else {
        return false;
    };
    let Some(l) = line.literal(j) else {
        return false;
    };
    among(c, l.creds()) && clause_fires(line, &d, &l)
}

// Whether credential x is one of l's, or its head is denied.
fn credential_covered(grounds: &Grounds, line: &Line, l: &Literal, x: usize) -> bool
    ensures { result ≡ covered_cred grounds.now.creds line.now.literals l.now.said x }
{
    if among(x, l.creds()) {
        return true;
    }
    let Some(c) = grounds.credential(x) else {
        return false;
    };
    line.denies(l, c.head())
}

// Whether l is positive and m negative on one atom, and each atom that m is given is given to l or denied.
fn cut_holds(line: &Line, l: &Literal, m: &Literal) -> bool
    ensures { result ≡ cuts line.now.literals l.now m.now }
{
    l.positive()
        && !m.positive()
        && l.atom() == m.atom()
        && m.atoms().iter().all(|x| line.covers(l, *x as usize))
}

// Rule 6: literal j is cut by literal i, and each credential of i is one of j's, or its head is denied.
pub(crate) fn cut_follows(grounds: &Grounds, line: &Line, j: usize, i: usize) -> bool
    ensures { (e : List papers.Line) → result ≡ follows grounds.now e line.now.literals (papers.cut j i) }
{
    let Some(l) = line.literal(j) else {
        return false;
    };
    let Some(m) = line.literal(i) else {
        return false;
    };
    cut_holds(line, &l, &m)
        && m.creds()
            .iter()
            .all(|c| credential_covered(grounds, line, &l, *c as usize))
}

// Whether m is negative and has credential c, which is d; l claims m's atom, and h an atom of d's body, both without c.
fn without_holds(d: &Clause, c: usize, m: &Literal, l: &Literal, h: &Literal) -> bool
    ensures { result ≡ withouts d.now c m.now l.now h.now }
{
    !m.positive()
        && among(c, m.creds())
        && l.claims_without(m, c)
        && l.atom() == m.atom()
        && h.claims_without(m, c)
        && among(h.atom(), d.body())
}

// Rule 7: finds credential c and literals i, j and k, m, l and h here.
pub(crate) fn without_follows(
    grounds: &Grounds,
    line: &Line,
    c: usize,
    i: usize,
    j: usize,
    k: usize,
) -> bool
    ensures { (e : List papers.Line) → result ≡ follows grounds.now e line.now.literals (papers.without c i j k) }
{
    let Some(d) = grounds.credential(c) else {
        return false;
    };
    let Some(m) = line.literal(i) else {
        return false;
    };
    let Some(l) = line.literal(j) else {
        return false;
    };
    let Some(h) = line.literal(k) else {
        return false;
    };
    without_holds(&d, c, &m, &l, &h)
}

// Whether p is positive, q negative on the same statement, and line has the other literals of a, whose number i is p, and of b, whose number j is q.
fn resolve_holds(
    line: &Line,
    a: &Line,
    i: usize,
    p: &Literal,
    b: &Line,
    j: usize,
    q: &Literal,
) -> bool
    ensures { result ≡ resolves line.now.literals a.now.literals i p.now b.now.literals j q.now }
{
    p.positive()
        && !q.positive()
        && p.says_same_as(q)
        && (a.is_alone(i) || line.has_others(a, i))
        && (b.is_alone(j) || line.has_others(b, j))
}

// Rule 8: finds lines u and w among those before this one, and literal i of the one and j of the other.
pub(crate) fn resolve_follows(
    before: &Earlier,
    line: &Line,
    u: usize,
    w: usize,
    i: usize,
    j: usize,
) -> bool
    ensures { (D : papers.Dossier) → result ≡ follows D before.now line.now.literals (papers.resolve u w i j) }
{
    let Some(a) = before.line(u) else {
        return false;
    };
    let Some(b) = before.line(w) else {
        return false;
    };
    let Some(p) = a.literal(i) else {
        return false;
    };
    let Some(q) = b.literal(j) else {
        return false;
    };
    resolve_holds(line, &a, i, &p, &b, j, &q)
}
