// When a line follows: rules 1 to 8, on the words of a sound dossier and of a sound certificate.
// A contract sees each thing that lies in the words as the one that is read there: a literal, a line, a clause, an entry, the dossier.
#![tactic(auto)]

ghost use Rattle.std.specs.Prelude.{◌≡◌};
ghost use Rattle.meaning.specs.Rules.{follows};

mod grounds;
mod line;
mod list;
mod rule;
mod rules;
mod value;

pub use grounds::Grounds;
pub use line::{Earlier, Line};
use rule::Rule;
use rules::{
    assumed_follows, clause_follows, credential_follows, cut_follows, probe_follows,
    resolve_follows, secret_follows, without_follows,
};

// Whether the line follows, by its own rule, from the dossier and the lines before it.
pub fn line_follows(grounds: &Grounds, before: &Earlier, line: &Line) -> bool
    ensures { result ≡ follows grounds.now before.now line.now.literals line.now.rule }
{
    match line.rule() {
        Rule::Probe(k) => probe_follows(grounds, line, k),
        Rule::Secret => secret_follows(grounds, line),
        Rule::Clause(i, j) => clause_follows(grounds, line, i, j),
        Rule::Assumed(j) => assumed_follows(line, j),
        Rule::Credential(c, j) => credential_follows(grounds, line, c, j),
        Rule::Cut(j, i) => cut_follows(grounds, line, j, i),
        Rule::Without(c, i, j, k) => without_follows(grounds, line, c, i, j, k),
        Rule::Resolve(u, v, i, j) => resolve_follows(before, line, u, v, i, j),
    }
}
