// Replays the records of standard input by their lists: a case is the length of the record and of the list, in two bytes each, then the
// record and the list. A line for each of these: the record's length and the list; the replay's answer, how many entries its evidence
// has and these; the replay with a buffer of 64 entries, and what then is in the first; the read-off's answer, length, the bytes of its
// witness and the byte behind them; the check's answer and evidence for what was read off, if it was; the read-off with one byte too
// few, and its first byte.
#![tactic(auto)]

ghost use Rattle.std.specs.Prelude.{◌≤◌, length};

use std::io;
use std::io::Read;

// Prints the bytes from `from` up to and with the one at `to`, each behind a space, and ends the line.
fn print_bytes(rt: &impl Print, bytes: &[u8], from: usize, to: usize) -> io::Result<()>
    requires { to ≤ length bytes.now }
{
    for x in bytes.iter().take(to + 1).skip(from) {
        printing::number(rt, *x)?;
    }
    printing::text(rt, b"\n")
}

// Replays with a lent buffer and prints its first entries: as many as the evidence has, and at least so many.
fn print_replay(
    rt: &impl Print,
    s: &[u8],
    list: &[u16],
    name: &[u8],
    ev: &mut [u16],
    least: usize,
) -> io::Result<()>
    requires { least ≤ length ev.old }
{
    let v = replay::replay::replay(s, list, ev);
    printing::text(rt, name)?;
    printing::verdict(rt, v.answer, v.count, &ev[..v.count.max(least)])
}

// As check_cases prints it: the crate that both print with stands on no judge.
fn print_check(rt: &impl Print, s: &[u8]) -> io::Result<()> {
    let mut ev = [9u16; 65];
    let v = judge::check::check(s, &mut ev);
    printing::text(rt, b"check")?;
    printing::verdict(rt, v.answer, v.count, &ev[..v.count])
}

// Prints the read-off's answer and length, its witness with the byte behind it, and the check of what was read off; of what was not read
// off, the first byte.
fn print_read_off(
    rt: &impl Print,
    s: &[u8],
    list: &[u16],
    name: &[u8],
    out: &mut [u8],
) -> io::Result<()> {
    let v = readoff::read_off::read_off(s, list, out);
    printing::text(rt, name)?;
    printing::number(rt, v.answer)?;
    printing::number(rt, v.count)?;
    if v.answer != 0 {
        return print_bytes(rt, out, 0, 0);
    }
    print_bytes(rt, out, form::place::start(s, 6), v.count)?;
    print_check(rt, &out[..v.count])
}

fn print_case(rt: &impl Print, s: &[u8], list: &[u16]) -> io::Result<()> {
    printing::text(rt, b"record")?;
    printing::number(rt, s.len())?;
    printing::text(rt, b" list")?;
    printing::list(rt, list)?;
    printing::text(rt, b"\n")
}

fn print_all(rt: &impl Print, s: &[u8], list: &[u16]) -> io::Result<()> {
    print_case(rt, s, list)?;
    print_replay(rt, s, list, b"replay", &mut [9; 65], 0)?;
    print_replay(rt, s, list, b"short", &mut [9; 64], 1)?;
    print_read_off(rt, s, list, b"off", &mut [7; 2347])?;
    print_read_off(rt, s, list, b"tight", &mut [7; 2345])
}

// The numbers of two bytes each, in the first entries of the buffer; none if they are more than it has room for.
fn read_list<'a>(bytes: &[u8], buffer: &'a mut [u16]) -> Option<&'a [u16]> {
    let (pairs, _) = bytes.as_chunks::<2>();
    for (x, pair) in buffer.iter_mut().zip(pairs) {
        *x = u16::from_le_bytes(*pair);
    }
    buffer.get(..pairs.len())
}

// The next record and the bytes of its list, read into the buffer; none at the end.
fn next_case<'a>(input: &mut impl Read, buf: &'a mut [u8]) -> Option<(&'a [u8], &'a [u8])> {
    let mut head = [0u8; 4];
    printing::read_part(input, &mut head, 4)?;
    let k = form::bytes::count_at(&head, 0);
    let m = form::bytes::count_at(&head, 2);
    printing::read_part(input, buf, k + 2 * m)?.split_at_checked(k)
}

fn main(rt: HostRuntime) -> io::Result<()> {
    let mut input = rt.stdin();
    let mut buf = [0u8; 4096];
    // A loop has to end, and the input need not: at most so many cases are read.
    for _ in 0..1000000 {
        let Some((record, bytes)) = next_case(&mut input, &mut buf) else {
            return Ok(());
        };
        if let Some(list) = read_list(bytes, &mut [0; 80]) {
            print_all(&rt, record, list)?;
        }
    }
    Ok(())
}
