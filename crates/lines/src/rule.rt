// A rule with its data words.

ghost use Rattle.std.specs.Prelude.{◌≡◌, ◌+◌, ◌≤◌, ◌<◌, length};
ghost use Rattle.promise.specs.Line.{data_count, rule_of};
ghost use Rattle.lines.specs.Named.{rule_told};

use promise::word;

// The rules in their order, each with what its data words name: numbers of a probe, of clauses, credentials, lines and literals.
#[derive(Clone, Copy)]
pub(crate) enum Rule {
    Probe(usize),
    Secret,
    Clause(usize, usize),
    Assumed(usize),
    Credential(usize, usize),
    Cut(usize, usize),
    Without(usize, usize, usize, usize),
    Resolve(usize, usize, usize, usize),
}

// Rule number r, with its data words from p on.
#[tactic(auto, using(crate::proofs::Bools::bools), unfolding(promise::specs::Line::data_count, promise::specs::Line::rule_of, meaning::specs::Tests::choose))]
pub(crate) fn rule_at(s: &[u16], r: usize, p: usize) -> Rule
    requires { (0 < r) × (p + data_count r ≤ length s.now) }
    ensures { rule_told result ≡ rule_of s.now r p }
{
    match r {
        1 => Rule::Probe(word(s, p)),
        2 => Rule::Secret,
        3 => Rule::Clause(word(s, p), word(s, p + 1)),
        4 => Rule::Assumed(word(s, p)),
        5 => Rule::Credential(word(s, p), word(s, p + 1)),
        6 => Rule::Cut(word(s, p), word(s, p + 1)),
        7 => Rule::Without(word(s, p), word(s, p + 1), word(s, p + 2), word(s, p + 3)),
        _ => Rule::Resolve(word(s, p), word(s, p + 1), word(s, p + 2), word(s, p + 3)),
    }
}
