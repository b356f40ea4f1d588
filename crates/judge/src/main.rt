// The program judge: reads the papers from standard input and prints the line of the reply.
#![tactic(auto)]

ghost use Rattle.std.specs.Prelude.{◌≤◌, length, take};
ghost use Rattle.std.specs.Io.KnownBytes.{Consumes};

use std::io;
use std::io::{Read, Write};

// Room for the longest input, and for one byte more, so that too long an input is seen.
const INPUT: usize = 65537;

// Room for the input's words.
const WORDS: usize = 32768;

// Room for the line.
const LINE: usize = 96;

// Reads the input to the lent bytes until they are full, or nothing more comes. Answers how many bytes it got.
fn read<R: Read>(input: &mut R, bytes: &mut [u8]) -> usize
    ensures count { result ≤ length bytes.new }
    ensures given { Consumes (R.remaining input.old) (R.remaining input.new) (take result bytes.new) }
{
    let mut done = 0;
    while done < bytes.len() {
        match input.read(&mut bytes[done..]) {
            Ok(got) if got > 0 => done += got,
            _ => return done,
        }
    }
    done
}

fn main(rt: HostRuntime) -> io::Result<()> {
    let mut bytes = [0; INPUT];
    let n = read(&mut rt.stdin(), &mut bytes);
    let mut table = [0; WORDS];
    let mut out = [0; LINE];
    let k = printed::stdin_line(&bytes[..n], &mut table, &mut out);
    rt.stdout().write_all(&out[..k])
}
