// Judges the records of standard input, each after its length in two bytes, a line for each of these: the check's answer, how many
// entries its evidence has and these; the check with a buffer of 64 entries, and what then is in the first; the order table's answer and
// its words; the order table's answer with room for three words, and these.
#![tactic(auto)]

ghost use Rattle.std.specs.Prelude.{◌≤◌, length};

use std::io;
use std::io::Read;

// Judges with a lent buffer and prints its first entries: as many as the evidence has, and at least so many.
fn print_check(
    rt: &impl Print,
    s: &[u8],
    name: &[u8],
    ev: &mut [u16],
    least: usize,
) -> io::Result<()>
    requires { least ≤ length ev.old }
{
    let v = judge::check::check(s, ev);
    printing::text(rt, name)?;
    printing::verdict(rt, v.answer, v.count, &ev[..v.count.max(least)])
}

// Prints the order table's answer and the words before the first that is 7, with which the lent table is filled.
fn print_order(rt: &impl Print, s: &[u8], name: &[u8], out: &mut [u64]) -> io::Result<()> {
    let answer = table::order_table(s, out);
    printing::text(rt, name)?;
    printing::number(rt, answer)?;
    for word in out.iter().take_while(|x| **x != 7) {
        printing::number(rt, *word)?;
    }
    printing::text(rt, b"\n")
}

fn print_all(rt: &impl Print, s: &[u8]) -> io::Result<()> {
    print_check(rt, s, b"check", &mut [9; 65], 0)?;
    print_check(rt, s, b"short", &mut [9; 64], 1)?;
    print_order(rt, s, b"order", &mut [7; 64])?;
    print_order(rt, s, b"tight", &mut [7; 3])
}

// The next record, read into the buffer; none at the end.
fn next_record<'a>(input: &mut impl Read, buf: &'a mut [u8]) -> Option<&'a [u8]> {
    let mut head = [0u8; 2];
    printing::read_part(input, &mut head, 2)?;
    printing::read_part(input, buf, form::bytes::count_at(&head, 0))
}

fn main(rt: HostRuntime) -> io::Result<()> {
    let mut input = rt.stdin();
    let mut buf = [0u8; 4096];
    // A loop has to end, and the input need not: at most so many records are read.
    for _ in 0..1000000 {
        match next_record(&mut input, &mut buf) {
            Some(record) => print_all(&rt, record)?,
            None => return Ok(()),
        }
    }
    Ok(())
}
