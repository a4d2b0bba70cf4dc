// Readings of slot case S1, cut at every length and with every byte in turn set to 255, and of records at the limits of
// sections 2 and 4: a line each, with the answer, how many entries its evidence has, and these.
#![tactic(auto)]

ghost use Rattle.std.specs.Prelude.{◌≤◌, length};

use std::io;

const S1: [u8; 102] = [
    1, 2, 4, 0, 0, 1, 0, 0, 100, 0, 0, 0, 1, 0, 0, 0, 0, 0, 1, 0, 200, 0, 0, 0, 0, 0, 0, 0, 1, 1,
    0, 0, 200, 0, 0, 0, 1, 0, 0, 0, 1, 0, 1, 0, 100, 0, 0, 0, 0, 0, 0, 0, 0, 0, 0, 0, 2, 0, 0, 0,
    0, 0, 100, 0, 0, 0, 0, 0, 0, 0, 0, 0, 0, 0, 200, 0, 0, 0, 0, 0, 0, 0, 2, 0, 0, 2, 0, 0, 0, 0,
    2, 0, 3, 0, 0, 1, 2, 3, 0, 2, 3, 0,
];

// One line: what reading and the structure rules answer.
fn print_examined(rt: &impl Print, name: &[u8], number: usize, s: &[u8]) -> io::Result<()> {
    let mut ev = [0u16; 65];
    let v = structure::examine::examine(s, &mut ev);
    printing::text(rt, name)?;
    printing::number(rt, number)?;
    printing::verdict(rt, v.answer, v.count, &ev[..v.count])
}

// One line: what reading answers.
fn print_read(rt: &impl Print, name: &[u8], number: usize, s: &[u8]) -> io::Result<()> {
    printing::text(rt, name)?;
    printing::number(rt, number)?;
    match form::whole::whole(s) {
        Err(f) => {
            printing::number(rt, f.answer)?;
            printing::number(rt, 1)?;
            printing::number(rt, f.section)?;
        }
        Ok(_) => {
            printing::number(rt, 0)?;
            printing::number(rt, 0)?;
        }
    }
    printing::text(rt, b"\n")
}

fn print_cuts(rt: &impl Print, s: &[u8]) -> io::Result<()> {
    for k in 0..s.len() {
        print_examined(rt, b"cut", k, &s[..k])?;
    }
    Ok(())
}

fn print_all_damaged(rt: &impl Print) -> io::Result<()> {
    for i in 0..S1.len() {
        let mut t = S1;
        t[i] = 255;
        print_examined(rt, b"byte", i, &t)?;
    }
    Ok(())
}

// Writes one processor with n loads of address 0 by its instruction 0, which is named g times as locked: all bytes but these stay 0.
// Hands back the length.
fn put_limit(t: &mut [u8], n: u8, g: u8) -> usize
    requires { (n ≤ 65) × (g ≤ 17) × (1024 ≤ length t.old) }
    ensures { result ≤ 1024 }
{
    t[0] = 1;
    t[1] = 1;
    t[2] = n;
    let four = 6 + 12 * usize::from(n);
    t[four] = g;
    let nine = four + 10 + 4 * usize::from(g);
    t[nine] = 1;
    nine + 4
}

fn print_limit(rt: &impl Print, name: &[u8], number: usize, n: u8, g: u8) -> io::Result<()>
    requires { (n ≤ 65) × (g ≤ 17) }
{
    let mut t = [0u8; 1024];
    let k = put_limit(&mut t, n, g);
    print_read(rt, name, number, &t[..k])
}

fn main(rt: HostRuntime) -> io::Result<()> {
    print_cuts(&rt, &S1)?;
    print_all_damaged(&rt)?;
    print_limit(&rt, b"events", 64, 64, 0)?;
    print_limit(&rt, b"events", 65, 65, 0)?;
    print_limit(&rt, b"locked", 16, 64, 16)?;
    print_limit(&rt, b"locked", 17, 64, 17)
}
