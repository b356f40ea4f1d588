// What the programs read and write: bytes as words, and a reply as its line of text.
#![tactic(auto)]

ghost use Rattle.std.specs.Prelude.{◌≡◌, ◌+◌, ◌*◌, ◌/◌, ◌≤◌, ◌<◌, min, length};
ghost use Rattle.promise.specs.Place.{filled};
ghost use Rattle.text.specs.Bytes.{word_at, whole, input_of};
ghost use Rattle.text.specs.Line.{put, digits_of, name_of, refusal_of, reply_text, line_of, input_line};

use reply::{Paper, Reply, Verdict};

// How many words standard input has for the dossier and for the certificate.
#[derive(Clone, Copy, Debug, PartialEq, Eq)]
pub struct Papers {
    pub dossier: usize,
    pub certificate: usize,
}

// Word i of the bytes, low byte first.
pub fn word_at(bytes: &[u8], i: usize) -> u16
    requires { 2 * i + 1 < length bytes.now }
    ensures { (result ≡ word_at bytes.now i) × (result < 65536) }
{
    u16::from_le_bytes([bytes[2 * i], bytes[2 * i + 1]])
}

// Whether so many bytes may be read: a length word at least, 65,536 bytes at most, and no odd byte left.
fn is_whole(n: usize) -> bool
    ensures { result ≡ whole n }
{
    if n < 2 || 65536 < n {
        return false;
    }
    n % 2 == 0
}

// How many words the bytes have for the dossier, as their first word announces, and for the certificate; or they are nothing that can be judged.
pub fn split(bytes: &[u8]) -> Option<Papers>
    ensures { result ≡ input_of bytes.now }
{
    let n = bytes.len();
    if !is_whole(n) {
        return None;
    }
    let dossier = usize::from(word_at(bytes, 0));
    let certificate = (n / 2 - 1).checked_sub(dossier)?;
    Some(Papers {
        dossier,
        certificate,
    })
}

// Writes the words of the bytes from the table's start, as many as it has room for; the rest of the table stays.
pub fn words(bytes: &[u8], table: &mut [u16])
    ensures { table.new ≡ filled (word_at bytes.now) (min (length bytes.now / 2) (length table.old)) table.old }
{
    for i in 0..table.len().min(bytes.len() / 2) {
        table[i] = word_at(bytes, i);
    }
}

// Writes the piece from place `at` on; the rest of the table stays. Answers the place after it.
pub fn write(piece: &[u8], out: &mut [u8], at: usize) -> usize
    requires { at + length piece.now ≤ length out.old }
    ensures { (out.new ≡ put out.old at piece.now) × (result ≡ at + length piece.now) }
{
    let end = at + piece.len();
    out[at..end].copy_from_slice(piece);
    end
}

// The digit d as a letter.
fn digit(d: usize) -> u8
    requires { d < 10 }
    ensures { result ≡ 48 + d }
{
    b'0' + (d as u8)
}

// Writes n in decimal from place `at` on, with at most so many digits as there is room; the rest of the table stays. Answers the place after it.
pub fn digits(n: usize, room: usize, out: &mut [u8], at: usize) -> usize
    requires { at + room ≤ length out.old }
    ensures { (out.new ≡ put out.old at (digits_of room n)) × (result ≡ at + length (digits_of room n)) }
{
    if room == 0 {
        return at;
    }
    if n < 10 {
        out[at] = digit(n);
        return at + 1;
    }
    let p = digits(n / 10, room - 1, out, at);
    out[p] = digit(n % 10);
    p + 1
}

// Writes the paper's name between two spaces from place `at` on. Answers the place after it.
fn name(paper: Paper, out: &mut [u8], at: usize) -> usize
    requires { at + 13 ≤ length out.old }
    ensures { (out.new ≡ put out.old at (name_of paper)) × (result ≡ at + length (name_of paper)) }
{
    match paper {
        Paper::Dossier => write(b" dossier ", out, at),
        Paper::Certificate => write(b" certificate ", out, at),
    }
}

// Writes a refusal, without a line feed, at the table's start; the rest of the table stays. Answers how many bytes it has.
fn refusal(number: u16, paper: Paper, place: usize, count: usize, out: &mut [u8]) -> usize
    requires { 96 ≤ length out.old }
    ensures { (out.new ≡ put out.old 0 (refusal_of number paper place count)) × (result ≡ length (refusal_of number paper place count)) }
{
    let a = write(b"REFUSED ", out, 0);
    let b = digits(usize::from(number), 20, out, a);
    let c = name(paper, out, b);
    let d = digits(place, 20, out, c);
    let e = write(b" ", out, d);
    digits(count, 20, out, e)
}

// Writes what the reply says, without a line feed, at the table's start; the rest of the table stays. Answers how many bytes it has.
pub fn reply_text(reply: Reply, out: &mut [u8]) -> usize
    requires { 96 ≤ length out.old }
    ensures { (out.new ≡ put out.old 0 (reply_text reply)) × (result ≡ length (reply_text reply)) }
{
    match reply.verdict {
        Verdict::Opaque => write(b"OPAQUE", out, 0),
        Verdict::Detectable => write(b"DETECTABLE", out, 0),
        Verdict::Refused(number) => refusal(number, reply.paper, reply.place, reply.count, out),
    }
}

// Writes the line that the reply prints at the table's start; the rest of the table stays. Answers how many bytes the line has.
pub fn line(reply: Reply, out: &mut [u8]) -> usize
    requires { 96 ≤ length out.old }
    ensures { (out.new ≡ put out.old 0 (line_of reply)) × (result ≡ length (line_of reply)) }
{
    let end = reply_text(reply, out);
    write(b"\n", out, end)
}

// Writes the line for input that is not papers at the table's start; the rest of the table stays. Answers how many bytes the line has.
pub fn input_line(out: &mut [u8]) -> usize
    requires { 96 ≤ length out.old }
    ensures { (out.new ≡ put out.old 0 input_line) × (result ≡ length input_line) }
{
    write(b"INPUT\n", out, 0)
}
