// What lies at a place of a sound paper: the reader's promise to the layers above, which never add up places themselves.
#![tactic(auto)]

ghost use Rattle.std.specs.Prelude.{◌≡◌, ℕ, ◌+◌, ◌≤◌, ◌<◌, List, length, get_or};
ghost use Rattle.meaning.specs.Tests.{same};
ghost use Rattle.meaning.specs.Formula.{Reading, read};
ghost use Rattle.meaning.specs.Rules.{same_statement};
ghost use Rattle.promise.specs.Place.{part, place, Fit, rows};
ghost use Rattle.promise.specs.Thing.{clause_next, ClauseOk, marked_next, MarkedOk, entry_next, EntryOk, line_next, Things};
ghost use Rattle.promise.specs.Clause.{clause_at, marked_at};
ghost use Rattle.promise.specs.Formula.{entry_at, FormulaFits, formula_at, formula_end, sign_of};
ghost use Rattle.promise.specs.Line.{literal_at, said_of, Held, data_count, line_at, literal, LineFits};

// A clause: its head, where its body stands and how many atoms it has, and the place after it.
#[derive(Clone, Copy)]
pub struct ClauseAt {
    pub head: usize,
    pub body: usize,
    pub count: usize,
    pub next: usize,
}

// A clause of the dossier, with its mark.
#[derive(Clone, Copy)]
pub struct MarkedAt {
    pub visible: bool,
    pub clause: ClauseAt,
}

// A probe or the secret: where its credentials stand and how many, where its formula stands, and the place after it.
#[derive(Clone, Copy)]
pub struct EntryAt {
    pub creds: usize,
    pub count: usize,
    pub formula: usize,
    pub next: usize,
}

// A literal: its sign, its two lists, its atom, and the place after it.
#[derive(Clone, Copy)]
pub struct LiteralAt {
    pub positive: bool,
    pub creds: usize,
    pub ncreds: usize,
    pub atoms: usize,
    pub natoms: usize,
    pub atom: usize,
    pub next: usize,
}

// A line: its rule's number, where its data words stand, where its literals stand and how many.
#[derive(Clone, Copy)]
pub struct LineAt {
    pub rule: usize,
    pub args: usize,
    pub literals: usize,
    pub count: usize,
}

// The dossier's number of atoms; where the first thing of each section stands, and how many it has; where the secret stands.
#[derive(Clone, Copy)]
pub struct Layout {
    pub atoms: usize,
    pub clauses: usize,
    pub nclauses: usize,
    pub creds: usize,
    pub ncreds: usize,
    pub probes: usize,
    pub nprobes: usize,
    pub secret: usize,
}

// What a certificate proposes, and how many clauses or lines it has; the first stands at place 2.
#[derive(Clone, Copy)]
pub enum Proposal {
    Witness(usize),
    Proof(usize),
}

// A kind of thing that lies in the words, one after the other.
pub trait Thing {
    // Where the next thing begins.
    ghost next: { List ℕ → ℕ → ℕ };

    // The words that say so are there.
    ghost ok: { List ℕ → ℕ → Type 0 };

    // The place after the thing at p.
    fn next_at(s: &[u16], p: usize) -> usize
        requires { ok s.now p }
        ensures { result ≡ next s.now p };
}

// The word at p.
pub fn word(s: &[u16], p: usize) -> usize
    requires { p < length s.now }
    ensures { (result ≡ get_or s.now p 0) × (result < 65536) }
{
    s[p] as usize
}

// The clause or credential at p.
pub fn clause_at(s: &[u16], p: usize) -> ClauseAt
    requires { (clause_at s.now p).next ≤ length s.now }
    ensures { result ≡ clause_at s.now p }
{
    let k = word(s, p + 1);
    ClauseAt {
        head: word(s, p),
        body: p + 2,
        count: k,
        next: p + 2 + k,
    }
}

// The dossier's clause at p.
pub fn marked_at(s: &[u16], p: usize) -> MarkedAt
    requires { (marked_at s.now p).clause.next ≤ length s.now }
    ensures { result ≡ marked_at s.now p }
{
    let c = clause_at(s, p + 1);
    MarkedAt {
        visible: word(s, p) == 1,
        clause: c,
    }
}

// The probe at p, or the secret.
pub fn entry_at(s: &[u16], p: usize) -> EntryAt
    requires { (entry_at s.now p).next ≤ length s.now }
    ensures { result ≡ entry_at s.now p }
{
    let k = word(s, p);
    let q = p + 1 + k;
    let len = word(s, q);
    EntryAt {
        creds: p + 1,
        count: k,
        formula: q + 1,
        next: q + 1 + len,
    }
}

// The literal at p.
pub fn literal_at(s: &[u16], p: usize) -> LiteralAt
    requires { (literal_at s.now p).next ≤ length s.now }
    ensures { result ≡ literal_at s.now p }
{
    let n = word(s, p + 1);
    let q = p + 2 + n;
    let m = word(s, q);
    let a = q + 1 + m;
    LiteralAt {
        positive: word(s, p) == 1,
        creds: p + 2,
        ncreds: n,
        atoms: q + 1,
        natoms: m,
        atom: word(s, a),
        next: a + 1,
    }
}

// How many data words the rule has.
pub fn data_count(r: usize) -> usize
    ensures { (result ≡ data_count r) × (result ≤ 4) }
{
    if r < 3 {
        if r == 1 {
            return 1;
        }
        return 0;
    }
    if r == 4 {
        return 1;
    }
    if r < 7 {
        return 2;
    }
    4
}

// The line at p.
pub fn line_at(s: &[u16], p: usize) -> LineAt
    requires { (line_at s.now p).literals ≤ length s.now }
    ensures { result ≡ line_at s.now p }
{
    let r = word(s, p);
    let x = p + 1 + data_count(r);
    LineAt {
        rule: r,
        args: p + 1,
        literals: x + 1,
        count: word(s, x),
    }
}

// The place after the k literals from p on.
pub fn after_literals(s: &[u16], p: usize, k: usize) -> usize
    requires { Fit literal s.now p k }
    ensures { result ≡ place (literal.next s.now) p k }
{
    let mut at = p;
    for _ in 0..k {
        at = literal_at(s, at).next;
    }
    at
}

// A credential, or a clause of a witness.
impl Thing for ClauseAt {
    ghost next = { clause_next };

    ghost ok = { ClauseOk };

    fn next_at(s: &[u16], p: usize) -> usize {
        clause_at(s, p).next
    }
}

// A clause of the dossier.
impl Thing for MarkedAt {
    ghost next = { marked_next };

    ghost ok = { MarkedOk };

    fn next_at(s: &[u16], p: usize) -> usize {
        marked_at(s, p).clause.next
    }
}

// A probe, or the secret.
impl Thing for EntryAt {
    ghost next = { entry_next };

    ghost ok = { EntryOk };

    fn next_at(s: &[u16], p: usize) -> usize {
        entry_at(s, p).next
    }
}

// A line of a proof.
impl Thing for LineAt {
    ghost next = { line_next };

    ghost ok = { LineFits };

    fn next_at(s: &[u16], p: usize) -> usize {
        let v = line_at(s, p);
        after_literals(s, v.literals, v.count)
    }
}

// Writes into the table where each of as many things from p on begins.
pub fn starts<T: Thing>(s: &[u16], p: usize, table: &mut [usize])
    requires { Things T.next T.ok s.now p (length table.old) }
    ensures { table.new ≡ rows (place (T.next s.now) p) (length table.old) }
{
    let mut at = p;
    for start in table.iter_mut() {
        *start = at;
        at = T::next_at(s, at);
    }
}

// Whether the k numbers of s from p on are the j of t from q on.
pub fn same_words(s: &[u16], p: usize, k: usize, t: &[u16], q: usize, j: usize) -> bool
    requires { (p + k ≤ length s.now) × (q + j ≤ length t.now) }
    ensures { result ≡ same (part s.now p k) (part t.now q j) }
{
    s[p..p + k] == t[q..q + j]
}

// Whether m, a literal in s, and l, one in t, speak of one statement.
#[inline(always)]
pub fn same_said(s: &[u16], m: LiteralAt, t: &[u16], l: LiteralAt) -> bool
    requires { Held s.now m × Held t.now l }
    ensures { result ≡ same_statement (said_of s.now m) (said_of t.now l) }
{
    m.atom == l.atom
        && same_words(s, m.creds, m.ncreds, t, l.creds, l.ncreds)
        && same_words(s, m.atoms, m.natoms, t, l.atoms, l.natoms)
}

// How a formula is read, with values of any type: what true, an atom, not, and, or give.
pub trait Valuation {
    type Value: Copy;

    // The reading; it knows the atoms below a limit.
    ghost reading: { Self → Reading Self.Value };

    ghost atoms: { Self → ℕ };

    // The value of true.
    fn truth(&self) -> Self::Value
        ensures { result ≡ (reading self.now).always };

    // The value of the atom x.
    fn atom(&self, x: usize) -> Self::Value
        requires { x < atoms self.now }
        ensures { result ≡ (reading self.now).atom x };

    // The value of not, of and, of or, by those of their operands.
    fn negated(&self, a: Self::Value) -> Self::Value
        ensures { result ≡ (reading self.now).neg a };

    fn both(&self, a: Self::Value, b: Self::Value) -> Self::Value
        ensures { result ≡ (reading self.now).conj a b };

    fn either(&self, a: Self::Value, b: Self::Value) -> Self::Value
        ensures { result ≡ (reading self.now).disj a b };
}

// What a word of a formula stands for.
#[derive(Clone, Copy, Debug, PartialEq, Eq)]
pub enum Sign {
    Atom(usize),
    True,
    Not,
    And,
    Or,
}

// Below 256 an atom, 256 true, 257 not, 258 and, any other or.
impl From<usize> for Sign {
    ghost from_gives = { λ x sign. sign ≡ sign_of x };

    fn from(x: usize) -> Sign {
        match x {
            0..=255 => Sign::Atom(x),
            256 => Sign::True,
            257 => Sign::Not,
            258 => Sign::And,
            _ => Sign::Or,
        }
    }
}

// The value of the formula at `at`, which is at most `deep` deep, and the place after it.
pub fn value_at<V: Valuation>(v: &V, s: &[u16], at: usize, deep: usize) -> (V::Value, usize)
    requires { FormulaFits (V.atoms v.now) deep s.now at }
    ensures { (result.0 ≡ read (V.reading v.now) (formula_at deep s.now at)) × (result.1 ≡ formula_end deep s.now at) }
{
    match Sign::from(word(s, at)) {
        Sign::Atom(x) => (v.atom(x), at + 1),
        Sign::True => (v.truth(), at + 1),
        Sign::Not => {
            let (a, next) = value_at(v, s, at + 1, deep - 1);
            (v.negated(a), next)
        }
        Sign::And => {
            let (a, middle) = value_at(v, s, at + 1, deep - 1);
            let (b, next) = value_at(v, s, middle, deep - 1);
            (v.both(a, b), next)
        }
        Sign::Or => {
            let (a, middle) = value_at(v, s, at + 1, deep - 1);
            let (b, next) = value_at(v, s, middle, deep - 1);
            (v.either(a, b), next)
        }
    }
}
