// The program trial: reads cases from standard input until its end, and prints a line for each.
#![tactic(auto)]

ghost use Rattle.std.specs.Prelude.{◌≡◌, ◌+◌, ◌*◌, ◌≤◌, length, replicate, take, Some, IfSome};
ghost use Rattle.std.specs.Io.KnownBytes.{Consumes};
ghost use Rattle.promise.specs.Place.{part};
ghost use Rattle.text.specs.Line.{put};
ghost use Rattle.printed.specs.Lists.{answers_line, rounds_line, asking, shown_line};
ghost use Rattle.trial.specs.Case.{size_of, Fits};
ghost use Rattle.trial.specs.Line.{case_line};

mod case;

use case::{Case, MOST_BYTES, body_size, case_of, header_size, kind_of};
use reply::Paper;
use std::io::{Read, Write};
use text::Papers;

// Room for a case's words, and for a table.
const WORDS: usize = 32768;

// How many bytes are read after a word that is no kind.
const OTHER: usize = 4;

// Room for a line: 96 bytes, and 6 for each word.
const LINE: usize = 196704;

// The answers' line for a table that is lent with 7 in every word.
fn sevens_line(dossier: &[u16], table: &mut [u16], out: &mut [u8]) -> usize
    requires { 96 + 6 * length table.old ≤ length out.old }
    ensures { (out.new ≡ put out.old 0 (answers_line dossier.now (replicate (length table.old) 7)))
        × (result ≡ length (answers_line dossier.now (replicate (length table.old) 7))) }
{
    table.fill(7);
    printed::answers_line(dossier, table, out)
}

// The line of shown words, with the dossier's words first and the certificate's after them.
fn shown_at(
    words: &[u16],
    paper: Paper,
    place: usize,
    count: usize,
    papers: Papers,
    out: &mut [u8],
) -> usize
    requires { (papers.dossier + papers.certificate ≤ length words.now)
        × (96 + 6 * (papers.dossier + papers.certificate) ≤ length out.old) }
    ensures { let line = shown_line (part words.now 0 papers.dossier) (part words.now papers.dossier papers.certificate) (asking paper place count) in
        (out.new ≡ put out.old 0 line) × (result ≡ length line) }
{
    let end = papers.dossier + papers.certificate;
    printed::shown_line(
        &words[..papers.dossier],
        &words[papers.dossier..end],
        paper,
        place,
        count,
        out,
    )
}

// The judge's line for a table that is lent with the word `fill` in every word, and then the table; the dossier's words are first, and the
// certificate's after them.
fn rounds_at(words: &[u16], fill: u16, papers: Papers, table: &mut [u16], out: &mut [u8]) -> usize
    requires { (papers.dossier + papers.certificate ≤ length words.now) × (96 + 6 * length table.old ≤ length out.old) }
    ensures { let line = rounds_line (part words.now 0 papers.dossier) (part words.now papers.dossier papers.certificate) (replicate (length table.old) fill) in
        (out.new ≡ put out.old 0 line) × (result ≡ length line) }
{
    let end = papers.dossier + papers.certificate;
    table.fill(fill);
    printed::rounds_line(
        &words[..papers.dossier],
        &words[papers.dossier..end],
        table,
        out,
    )
}

// Reads the input to the lent bytes until they are full, or nothing more comes. Answers how many bytes it got.
fn read<R: Read>(input: &mut R, bytes: &mut [u8]) -> usize
    ensures count { result ≤ length bytes.new }
    ensures given { Consumes (R.remaining input.old) (R.remaining input.new) (take result bytes.new) }
{
    let mut done = 0;
    while done < bytes.len() {
        match input.read(&mut bytes[done..]) {
            Ok(got) if got > 0 => done += got,
            _ => return done,
        }
    }
    done
}

// Reads the lent bytes from the input; none where it has fewer.
fn read_whole<R: Read>(input: &mut R, bytes: &mut [u8]) -> Option<()> {
    (read(input, bytes) == bytes.len()).then_some(())
}

// What a run holds: the bytes of a case and their words, a table to lend, and a line.
#[derive(Drop)]
struct Memory {
    bytes: [u8; MOST_BYTES],
    words: [u16; WORDS],
    lent: [u16; WORDS],
    out: [u8; LINE],
}

impl Memory {
    // Reads the rest of a case, after so many bytes of its kind, and the bytes that follow its numbers; none where it is no case.
    fn read_case<R: Read>(&mut self, input: &mut R, got: usize) -> Option<Case>
        ensures { IfSome result Fits }
    {
        if got < 2 {
            return None;
        }
        let Some(kind) = kind_of(text::word_at(&self.bytes, 0)) else {
            read(input, &mut self.bytes[..OTHER]);
            return None;
        };
        let header = &mut self.bytes[..header_size(kind)];
        read_whole(input, header)?;
        let case = case_of(kind, header)?;
        read_whole(input, &mut self.bytes[..body_size(case)])?;
        Some(case)
    }

    // The line that the case prints, with the bytes that follow its numbers. Answers how many bytes the line has.
    fn case_line(&mut self, case: Case) -> usize
        requires { Fits case }
        ensures { let line = case_line (Some case) (take (size_of (Some case)) self.old.bytes) in
            (self.new.out ≡ put self.old.out 0 line) × (result ≡ length line) × (result ≤ LINE) }
    {
        let body = &self.bytes[..body_size(case)];
        text::words(body, &mut self.words);
        let lent = &mut self.lent[..];
        match case {
            Case::Judge(papers) => {
                printed::papers_at(
                    &self.words,
                    0,
                    papers.dossier,
                    papers.certificate,
                    &mut self.out,
                )
            }
            Case::Answers { table, dossier } => {
                sevens_line(&self.words[..dossier], &mut lent[..table], &mut self.out)
            }
            Case::Shown {
                paper,
                place,
                count,
                papers,
            } => shown_at(&self.words, paper, place, count, papers, &mut self.out),
            Case::Bytes(count) => {
                printed::stdin_line(&self.bytes[..count], &mut self.words, &mut self.out)
            }
            Case::Rounds {
                fill,
                table,
                papers,
            } => rounds_at(&self.words, fill, papers, &mut lent[..table], &mut self.out),
        }
    }

    // The line of what was read: a case, or none. Answers how many bytes the line has.
    fn line(&mut self, case: Option<Case>) -> usize
        requires { IfSome case Fits }
        ensures { let line = case_line case (take (size_of case) self.old.bytes) in
            (self.new.out ≡ put self.old.out 0 line) × (result ≡ length line) × (result ≤ LINE) }
    {
        match case {
            None => text::input_line(&mut self.out),
            Some(case) => self.case_line(case),
        }
    }

    // Reads a case and prints its line. Answers whether to go on: not at the end of the input, not after what is no case, and not
    // where the line could not be written.
    fn one_case<R: Read, W: Write>(&mut self, input: &mut R, output: &mut W) -> bool {
        let got = read(input, &mut self.bytes[..2]);
        if got == 0 {
            return false;
        }
        let case = self.read_case(input, got);
        let end = self.line(case);
        output.write_all(&self.out[..end]).is_ok() && case.is_some()
    }

    // Prints the lines of all cases. The turns are counted, since a proved loop has to end and nothing says that the input does; no
    // run uses them up.
    fn run<R: Read, W: Write>(&mut self, input: &mut R, output: &mut W) {
        for _ in 0..u64::MAX {
            if !self.one_case(input, output) {
                return;
            }
        }
    }
}

fn main(rt: HostRuntime) {
    let mut memory = Memory {
        bytes: [0; MOST_BYTES],
        words: [0; WORDS],
        lent: [0; WORDS],
        out: [0; LINE],
    };
    memory.run(&mut rt.stdin(), &mut rt.stdout());
}
