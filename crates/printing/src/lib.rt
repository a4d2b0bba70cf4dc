// Input and output of the programs that the gate runs: bytes from standard input; text, numbers, lists and verdicts on standard output.
// Promises that what is read stands at the front of the buffer, and nothing about what is printed: each function ends and stays within
// what it is lent. A failed read ends the input; a failed write is handed back as its error.
#![tactic(auto)]

ghost use Rattle.std.specs.Prelude.{◌≡◌, ◌<◌, ◌≤◌, IfSome, IsNone, length, take};
ghost use Rattle.std.specs.Io.KnownBytes.{Consumes};

use std::fmt::Display;
use std::io;
use std::io::Read;

// Reads until the buffer is full, the input ends or a read fails, and hands back how many bytes stand at the buffer's front: those that
// the input then has no longer.
pub fn read_full<R: Read>(input: &mut R, buf: &mut [u8]) -> usize
    ensures within { result ≤ length buf.new }
    ensures bytes { Consumes (R.remaining input.old) (R.remaining input.new) (take result buf.new) }
{
    let mut k = 0;
    // How far k goes is the reads' to say: no range counts that.
    while k < buf.len() {
        match input.read(&mut buf[k..]) {
            Ok(n) if 0 < n => k += n,
            _ => break,
        }
    }
    k
}

// Reads the next k bytes into the buffer and hands these back; none where the buffer has no room for them or the input ends before.
pub fn read_part<'a, R: Read>(input: &mut R, buf: &'a mut [u8], k: usize) -> Option<&'a [u8]>
    ensures room { length buf.old < k → IsNone result }
    ensures whole { IfSome result (λ part. length part.now ≡ k) }
    ensures bytes { IfSome result (λ part. Consumes (R.remaining input.old) (R.remaining input.new) part.now) }
{
    let part = buf.get_mut(..k)?;
    if read_full(input, part) < k {
        return None;
    }
    Some(part)
}

// Prints the bytes as they are.
pub fn text(rt: &impl Print, s: &[u8]) -> io::Result<()> {
    rt.write_all(s)
}

// Prints a number in decimal.
pub fn decimal(rt: &impl Print, x: impl Display + Drop) -> io::Result<()> {
    print!(rt; "{x}")
}

// Prints a space and a number in decimal.
pub fn number(rt: &impl Print, x: impl Display + Drop) -> io::Result<()> {
    print!(rt; " {x}")
}

// Prints the numbers, each behind a space.
pub fn list(rt: &impl Print, numbers: &[u16]) -> io::Result<()> {
    for x in numbers {
        number(rt, *x)?;
    }
    Ok(())
}

// Prints an answer, how many entries of evidence it has, some entries, and ends the line.
pub fn verdict(rt: &impl Print, answer: u16, count: usize, evidence: &[u16]) -> io::Result<()> {
    number(rt, answer)?;
    number(rt, count)?;
    list(rt, evidence)?;
    text(rt, b"\n")
}
