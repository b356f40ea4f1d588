// The value of a formula when each literal of a line is false: true, false, or unknown.
#![tactic(auto, using(crate::proofs::Bools::bools, crate::proofs::Values::values))]

ghost use Rattle.std.specs.Prelude.{◌≡◌};
ghost use Rattle.meaning.specs.Rules.{not₃, and₃, or₃, ◌gives◌};
ghost use Rattle.lines.specs.Named.{told};
ghost use Rattle.lines.specs.Supposing.{supposing};

use crate::line::{Line, Literal};
use promise::Valuation;

// Not of a value: unknown of unknown.
fn not_of(a: Option<bool>) -> Option<bool>
    ensures { told result ≡ not₃ (told a) }
{
    a.map(|b| !b)
}

// And of two values: false if either is false, true if both are true, else unknown.
fn and_of(a: Option<bool>, b: Option<bool>) -> Option<bool>
    ensures { told result ≡ and₃ (told a) (told b) }
{
    if a == Some(false) || b == Some(false) {
        return Some(false);
    }
    a.and(b)
}

// Or of two values.
fn or_of(a: Option<bool>, b: Option<bool>) -> Option<bool>
    ensures { told result ≡ or₃ (told a) (told b) }
{
    not_of(and_of(not_of(a), not_of(b)))
}

// The atoms below a limit, given credentials, when each literal of a line is false.
#[derive(Drop)]
pub(crate) struct Supposed<'a, 'b> {
    pub line: &'a Line<'b>,
    pub creds: &'a [u16],
    pub atoms: usize,
}

impl<'a, 'b> Valuation for Supposed<'a, 'b> {
    type Value = Option<bool>;

    ghost reading = { λ v. supposing v.line.now.literals v.creds.now };

    ghost atoms = { λ v. v.atoms };

    fn truth(&self) -> Option<bool> {
        Some(true)
    }

    fn atom(&self, x: usize) -> Option<bool> {
        self.line.supposes(&Literal::given(self.creds, x))
    }

    fn negated(&self, a: Option<bool>) -> Option<bool> {
        not_of(a)
    }

    fn both(&self, a: Option<bool>, b: Option<bool>) -> Option<bool> {
        and_of(a, b)
    }

    fn either(&self, a: Option<bool>, b: Option<bool>) -> Option<bool> {
        or_of(a, b)
    }
}

// Whether the value is known, and is b.
pub(crate) fn gives(value: Option<bool>, b: bool) -> bool
    ensures { result ≡ (told value gives b) }
{
    value == Some(b)
}
