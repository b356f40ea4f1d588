// What the judge answers, and the part of a paper that an answer shows.
#![tactic(auto)]

ghost use Rattle.std.specs.Prelude.{◌≡◌, ℕ, refl};
ghost use Rattle.reply.specs.Part.{part_of, part_at};
ghost use Rattle.reply.specs.Shown.{shown_of, shown_at};
ghost use Rattle.reply.specs.Numbers.{number, fault_of, fault_number};

#[derive(Clone, Copy)]
pub enum Paper {
    Dossier,
    Certificate,
}

#[derive(Clone, Copy)]
pub enum Verdict {
    Opaque,
    Detectable,
    Refused(u16),
}

// What is wrong with the papers, in the order of the numbers that a refusal has.
#[derive(Clone, Copy, Debug, PartialEq, Eq)]
pub enum Fault {
    // A word is missing: the paper has ended.
    Ended = 1,
    // A count or a length is too small or too large.
    Limits,
    // An atom number is not below n, the number of atoms.
    Atom,
    // A list does not rise.
    NotRising,
    // A mark or a sign is neither 0 nor 1.
    Sign,
    // A credential number is not below the number of credentials.
    Credential,
    // A formula word is above 259.
    FormulaWord,
    // A formula is deeper than 16, or not exactly as long as its length says.
    FormulaShape,
    // Words are left over.
    LeftOver,
    // The certificate has more than 24,000 words.
    TooLong,
    // The certificate is neither a witness nor a proof.
    Kind,
    // A rule is not 1 to 8.
    Rule,
    // Two literals of a line speak of one statement.
    SaidTwice,
    // The witness answers a probe otherwise than the dossier's policy.
    ProbeDiffers,
    // The witness gives the secret the value that it has in the dossier's policy.
    SecretKept,
    // A line of the proof does not follow by its rule.
    LineFails,
    // The last line is not empty.
    LastNotEmpty,
    // A lent table is too short.
    ShortTable,
}

impl From<Fault> for u16 {
    ghost from_gives = { λ fault e. e ≡ number fault };

    // The fault's number.
    fn from(fault: Fault) -> u16 {
        fault as u16
    }
}

// What a refusal tells by: the fault, or any number.
pub trait Tells: Copy {
    // Its number, and what tells a number.
    ghost as_number: { Self → ℕ };

    ghost from_number: { ℕ → Self };

    // What tells the fault: it has the fault's number.
    fn of(fault: Fault) -> Self
        ensures { as_number result ≡ number fault };

    // It is what its number tells.
    ghost back: { (x : Self) → from_number (as_number x) ≡ x };
}

impl Tells for Fault {
    ghost as_number = { number };

    ghost from_number = { fault_of };

    ghost back = { fault_number };

    fn of(fault: Fault) -> Fault {
        fault
    }
}

impl Tells for u16 {
    ghost as_number = { λ e. e };

    ghost from_number = { λ e. e };

    ghost back = { λ e. refl };

    fn of(fault: Fault) -> u16 {
        u16::from(fault)
    }
}

// A refusal that a reader finds: what is wrong, the place in the paper that it reads, and how many words are shown.
#[derive(Clone, Copy, Debug, PartialEq, Eq)]
pub struct Refusal<W = Fault> {
    pub fault: W,
    pub place: usize,
    pub count: usize,
}

// The verdict, beside the paper's name, a place in it, and a count of words.
#[derive(Clone, Copy)]
pub struct Reply {
    pub verdict: Verdict,
    pub paper: Paper,
    pub place: usize,
    pub count: usize,
}

// So many words of `s` from the place on; the empty part at the end of `s` where they don't fit.
fn part_of(s: &[u16], place: usize, count: usize) -> &[u16]
    ensures { (result.now ≡ part_of s.now place count) × (result.ref_ptr ≡ part_at s.entry place count) }
{
    let end = s.len();
    if end < place {
        return &s[end..end];
    }
    if count <= end - place {
        &s[place..place + count]
    } else {
        &s[end..end]
    }
}

// The part of the dossier or of the certificate that the reply shows: the lent words themselves, at their place in memory.
pub fn shown<'a>(dossier: &'a [u16], certificate: &'a [u16], reply: Reply) -> &'a [u16]
    ensures { (result.now ≡ shown_of dossier.now certificate.now reply)
        × (result.ref_ptr ≡ shown_at dossier.entry certificate.entry reply) }
{
    match reply.paper {
        Paper::Dossier => part_of(dossier, reply.place, reply.count),
        Paper::Certificate => part_of(certificate, reply.place, reply.count),
    }
}
