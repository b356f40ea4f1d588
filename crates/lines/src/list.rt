// Lists of numbers, and tables of where things begin.

ghost use Rattle.std.specs.Prelude.{◌≡◌, ◌+◌, ◌≤◌, take, length, slice_get};
ghost use Rattle.meaning.specs.Tests.{same, mem};
ghost use Rattle.meaning.specs.Rules.{omit};
ghost use Rattle.promise.specs.Place.{part};

// The k numbers of s from p on.
pub(crate) fn part(s: &[u16], p: usize, k: usize) -> &[u16]
    requires { p + k ≤ length s.now }
    ensures { result.now ≡ part s.now p k }
{
    &s[p..p + k]
}

// Whether x is one of the numbers of s.
pub(crate) fn among(x: usize, s: &[u16]) -> bool
    ensures { result ≡ mem x s.now }
{
    s.iter().any(|y| x == *y as usize)
}

// Whether s and t are the same numbers.
#[tactic(auto, using(crate::proofs::Lists::same_is))]
pub(crate) fn same(s: &[u16], t: &[u16]) -> bool
    ensures { result ≡ same s.now t.now }
{
    s == t
}

// Whether s is t without c.
pub(crate) fn same_without(s: &[u16], t: &[u16], c: usize) -> bool
    ensures { result ≡ same s.now (omit c t.now) }
{
    s.iter().eq(t.iter().filter(|y| **y as usize != c))
}

// Entry j of the k in a table: where clause, credential, probe or earlier line j begins.
pub(crate) fn pick(table: &[usize], k: usize, j: usize) -> Option<usize>
    requires { k ≤ length table.now }
    ensures { result ≡ slice_get (take k table.now) j }
{
    table[..k].get(j).copied()
}
