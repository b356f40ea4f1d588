// The lines that the programs print: of the judge's reply, of standard input, of the answers, and of shown words.
#![tactic(auto)]

ghost use Rattle.std.specs.Prelude.{◌≡◌, ◌++◌, ◌+◌, ◌*◌, ◌≤◌, length};
ghost use Rattle.promise.specs.Place.{part};
ghost use Rattle.judging.specs.Judge.{judge_of};
ghost use Rattle.judging.specs.Rounds.{rounds_after};
ghost use Rattle.judging.specs.Answers.{table_after};
ghost use Rattle.text.specs.Line.{put, decimal, line_of};
ghost use Rattle.printed.specs.Printed.{printed, table_read};
ghost use Rattle.printed.specs.Lists.{spaced, spaced_all, list_of, answers_head, answers_line, rounds_line, asking, shown_line};

use reply::{Paper, Reply, Verdict};

// How many words are lent to the judge: room for every dossier's atoms.
const LENT: usize = 64;

// The line of the judge's reply to the two papers. Answers how many bytes it has.
pub fn papers_line(dossier: &[u16], certificate: &[u16], out: &mut [u8]) -> usize
    requires { 96 ≤ length out.old }
    ensures { (out.new ≡ put out.old 0 (line_of (judge_of dossier.now certificate.now 64)))
        × (result ≡ length (line_of (judge_of dossier.now certificate.now 64))) }
{
    let mut rounds = [0; LENT];
    text::line(judging::judge(dossier, certificate, &mut rounds), out)
}

// The line of the judge's reply to papers that lie in the words from place `at` on: d words of the dossier, then c of the certificate. Answers how many bytes it has.
pub fn papers_at(words: &[u16], at: usize, d: usize, c: usize, out: &mut [u8]) -> usize
    requires { (at + d + c ≤ length words.now) × (96 ≤ length out.old) }
    ensures { (out.new ≡ put out.old 0 (line_of (judge_of (part words.now at d) (part words.now (at + d) c) 64)))
        × (result ≡ length (line_of (judge_of (part words.now at d) (part words.now (at + d) c) 64))) }
{
    let from = at + d;
    let end = from + c;
    papers_line(&words[at..from], &words[from..end], out)
}

// The line that the program judge prints for these bytes of standard input; the table gets their words where they are papers. Answers how many bytes the line has.
pub fn stdin_line(bytes: &[u8], table: &mut [u16], out: &mut [u8]) -> usize
    requires { (32768 ≤ length table.old) × (96 ≤ length out.old) }
    ensures { (out.new ≡ put out.old 0 (printed bytes.now)) × (result ≡ length (printed bytes.now))
        × (table.new ≡ table_read bytes.now table.old) }
{
    match text::split(bytes) {
        None => text::input_line(out),
        Some(papers) => {
            text::words(bytes, table);
            papers_at(table, 1, papers.dossier, papers.certificate, out)
        }
    }
}

// Writes a word after a space from place `at` on. Answers the place after it.
fn spaced_word(word: u16, out: &mut [u8], at: usize) -> usize
    requires { at + 6 ≤ length out.old }
    ensures { (out.new ≡ put out.old at (spaced word)) × (result ≡ at + length (spaced word)) }
{
    let p = text::write(b" ", out, at);
    text::digits(usize::from(word), 5, out, p)
}

// Writes the words, each after a space, from place `at` on. Answers the place after them.
fn spaced_words(words: &[u16], out: &mut [u8], at: usize) -> usize
    requires { at + 6 * length words.now ≤ length out.old }
    ensures { (out.new ≡ put out.old at (spaced_all words.now)) × (result ≡ at + length (spaced_all words.now)) }
{
    let mut p = at;
    for word in words {
        p = spaced_word(*word, out, p);
    }
    p
}

// Writes a colon after a space, the words, each after a space, and a line feed from place `at` on. Answers the place after them.
fn list(words: &[u16], out: &mut [u8], at: usize) -> usize
    requires { at + 6 * length words.now + 3 ≤ length out.old }
    ensures { (out.new ≡ put out.old at (list_of words.now)) × (result ≡ at + length (list_of words.now)) }
{
    let p = text::write(b" :", out, at);
    let q = spaced_words(words, out, p);
    text::write(b"\n", out, q)
}

// Writes the title and the number n at the table's start. Answers how many bytes they have.
fn headed(title: &[u8], n: usize, out: &mut [u8]) -> usize
    requires { length title.now + 20 ≤ length out.old }
    ensures { (out.new ≡ put out.old 0 (title.now ++ decimal n)) × (result ≡ length (title.now ++ decimal n))
        × (result ≤ length title.now + 20) }
{
    let p = text::write(title, out, 0);
    text::digits(n, 20, out, p)
}

// Writes what the answers entry answered at the table's start, without a line feed. Answers how many bytes it has.
fn answers_head(answer: Result<usize, Reply>, out: &mut [u8]) -> usize
    requires { 96 ≤ length out.old }
    ensures { (out.new ≡ put out.old 0 (answers_head answer)) × (result ≡ length (answers_head answer)) }
{
    match answer {
        Ok(n) => headed(b"ANSWERS ", n, out),
        Err(reply) => text::reply_text(reply, out),
    }
}

// The line of the answers entry: what it answers, and then the whole of the table, which it was lent. Answers how many bytes the line has.
pub fn answers_line(dossier: &[u16], table: &mut [u16], out: &mut [u8]) -> usize
    requires { 96 + 6 * length table.old ≤ length out.old }
    ensures { (out.new ≡ put out.old 0 (answers_line dossier.now table.old))
        × (result ≡ length (answers_line dossier.now table.old))
        × (table.new ≡ table_after dossier.now table.old) }
{
    let answer = judging::answers(dossier, table);
    let p = answers_head(answer, out);
    list(table, out, p)
}

// The line of the judge's reply to the two papers, and then the whole of the table, which it was lent. Answers how many bytes the line has.
pub fn rounds_line(
    dossier: &[u16],
    certificate: &[u16],
    rounds: &mut [u16],
    out: &mut [u8],
) -> usize
    requires { 96 + 6 * length rounds.old ≤ length out.old }
    ensures { (out.new ≡ put out.old 0 (rounds_line dossier.now certificate.now rounds.old))
        × (result ≡ length (rounds_line dossier.now certificate.now rounds.old))
        × (rounds.new ≡ rounds_after dossier.now certificate.now rounds.old) }
{
    let reply = judging::judge(dossier, certificate, rounds);
    let p = text::reply_text(reply, out);
    list(rounds, out, p)
}

// The line of the words that a reply with this paper, place and count shows: how many, and the words. Answers how many bytes the line has.
pub fn shown_line<'a>(
    dossier: &'a [u16],
    certificate: &'a [u16],
    paper: Paper,
    place: usize,
    count: usize,
    out: &mut [u8],
) -> usize
    requires { 96 + 6 * (length dossier.now + length certificate.now) ≤ length out.old }
    ensures { (out.new ≡ put out.old 0 (shown_line dossier.now certificate.now (asking paper place count)))
        × (result ≡ length (shown_line dossier.now certificate.now (asking paper place count))) }
{
    let reply = Reply {
        verdict: Verdict::Opaque,
        paper,
        place,
        count,
    };
    let words = reply::shown(dossier, certificate, reply);
    let p = headed(b"SHOWN ", words.len(), out);
    list(words, out, p)
}
