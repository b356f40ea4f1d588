// What a case of the run asks for, by its first word and the numbers after it.

ghost use Rattle.std.specs.Prelude.{◌≡◌, ◌+◌, ◌*◌, ◌≤◌, length, Some, IfSome};
ghost use Rattle.trial.specs.Case.{kind_of, header_of, paper_of, sizes_at, papers_at, shown_case, bytes_case, rounds_case, case_of, size_of, Fits};

use reply::Paper;
use text::Papers;

// The most bytes that may follow a case's numbers.
pub(crate) const MOST_BYTES: usize = 70000;

// The most words that two papers may have together, or a table and a paper.
const MOST_WORDS: usize = 32767;

// What a case's first word says that it asks for.
#[derive(Clone, Copy)]
pub(crate) enum Kind {
    Judge,
    Answers,
    Shown,
    Bytes,
    Rounds,
}

// What a case asks for, with how many words its table and its papers have.
#[derive(Clone, Copy)]
pub(crate) enum Case {
    // The judge's line.
    Judge(Papers),
    // The answers' line, for a table of so many words.
    Answers {
        table: usize,
        dossier: usize,
    },
    // The line of the words that a reply with this paper, place and count shows.
    Shown {
        paper: Paper,
        place: usize,
        count: usize,
        papers: Papers,
    },
    // The line for so many bytes of standard input.
    Bytes(usize),
    // The judge's line and its table, which is lent with `fill` in each of so many words.
    Rounds {
        fill: u16,
        table: usize,
        papers: Papers,
    },
}

// The kind with this number, 1 to 5.
pub(crate) fn kind_of(number: u16) -> Option<Kind>
    ensures { result ≡ kind_of number }
{
    match number {
        1 => Some(Kind::Judge),
        2 => Some(Kind::Answers),
        3 => Some(Kind::Shown),
        4 => Some(Kind::Bytes),
        5 => Some(Kind::Rounds),
        _ => None,
    }
}

// How many bytes the numbers between a case's kind and its papers have.
pub(crate) fn header_size(kind: Kind) -> usize
    ensures { result ≡ header_of kind }
{
    match kind {
        Kind::Shown => 10,
        Kind::Rounds => 8,
        Kind::Judge | Kind::Answers | Kind::Bytes => 4,
    }
}

// The paper with this number: 0 is the dossier, 1 the certificate.
fn paper_of(number: u16) -> Option<Paper>
    ensures { result ≡ paper_of number }
{
    match number {
        0 => Some(Paper::Dossier),
        1 => Some(Paper::Certificate),
        _ => None,
    }
}

// Words i and i + 1 of the numbers, which say how long two papers are, or a table and a paper; none above the limit for both together.
fn sizes_at(header: &[u8], i: usize) -> Option<(usize, usize)>
    requires { 2 * i + 4 ≤ length header.now }
    ensures answer { result ≡ sizes_at header.now i }
    ensures fits { IfSome result (λ s. s.0 + s.1 ≤ 32767) }
{
    let first = usize::from(text::word_at(header, i));
    let second = usize::from(text::word_at(header, i + 1));
    (first + second <= MOST_WORDS).then_some((first, second))
}

// Words i and i + 1 of the numbers, as the lengths of the dossier and of the certificate; none above the limit for both together.
fn papers_at(header: &[u8], i: usize) -> Option<Papers>
    requires { 2 * i + 4 ≤ length header.now }
    ensures answer { result ≡ papers_at header.now i }
    ensures fits { IfSome result (λ p. p.dossier + p.certificate ≤ 32767) }
{
    let (dossier, certificate) = sizes_at(header, i)?;
    Some(Papers {
        dossier,
        certificate,
    })
}

// Kind 3: a paper, a place and a count, and the dossier's length and the certificate's.
fn shown_case(header: &[u8]) -> Option<Case>
    requires { 10 ≤ length header.now }
    ensures answer { result ≡ shown_case header.now }
    ensures fits { IfSome result Fits }
{
    let paper = paper_of(text::word_at(header, 0))?;
    let papers = papers_at(header, 3)?;
    Some(Case::Shown {
        paper,
        place: usize::from(text::word_at(header, 1)),
        count: usize::from(text::word_at(header, 2)),
        papers,
    })
}

// Kind 4: a count of bytes as two words, low, then high.
fn bytes_case(header: &[u8]) -> Option<Case>
    requires { 4 ≤ length header.now }
    ensures answer { result ≡ bytes_case header.now }
    ensures fits { IfSome result Fits }
{
    let low = usize::from(text::word_at(header, 0));
    let high = usize::from(text::word_at(header, 1));
    let count = low + 65536 * high;
    (count <= MOST_BYTES).then_some(Case::Bytes(count))
}

// Kind 5: what its table is filled with, the table's length, and the dossier's and the certificate's.
fn rounds_case(header: &[u8]) -> Option<Case>
    requires { 8 ≤ length header.now }
    ensures answer { result ≡ rounds_case header.now }
    ensures fits { IfSome result Fits }
{
    let fill = text::word_at(header, 0);
    let table = usize::from(text::word_at(header, 1));
    let papers = papers_at(header, 2)?;
    (table <= MOST_WORDS).then_some(Case::Rounds {
        fill,
        table,
        papers,
    })
}

// What a case of this kind asks for, with these numbers before its papers.
pub(crate) fn case_of(kind: Kind, header: &[u8]) -> Option<Case>
    requires { header_of kind ≤ length header.now }
    ensures answer { result ≡ case_of kind header.now }
    ensures fits { IfSome result Fits }
{
    match kind {
        Kind::Judge => Some(Case::Judge(papers_at(header, 0)?)),
        Kind::Answers => {
            let (table, dossier) = sizes_at(header, 0)?;
            Some(Case::Answers { table, dossier })
        }
        Kind::Shown => shown_case(header),
        Kind::Bytes => bytes_case(header),
        Kind::Rounds => rounds_case(header),
    }
}

// How many bytes follow a case's numbers.
pub(crate) fn body_size(case: Case) -> usize
    requires { Fits case }
    ensures { (result ≡ size_of (Some case)) × (result ≤ MOST_BYTES) }
{
    match case {
        Case::Judge(papers) | Case::Shown { papers, .. } | Case::Rounds { papers, .. } => {
            2 * (papers.dossier + papers.certificate)
        }
        Case::Answers { dossier, .. } => 2 * dossier,
        Case::Bytes(count) => count + count % 2,
    }
}
