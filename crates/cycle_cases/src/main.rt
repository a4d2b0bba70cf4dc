// The cycle that is shown of some relations, beside the expected one.
#![tactic(auto)]

ghost use Rattle.std.specs.Prelude.{◌≤◌, ◌<◌, length};

use rows::Set;
use std::io;

// The number that a digit stands for.
fn digit(b: u8) -> usize
    ensures { result < 16 }
{
    usize::from(b % 16)
}

// Prints the numbers below n.
fn print_below(rt: &impl Print, n: u64) -> io::Result<()> {
    for i in 0..n {
        printing::number(rt, i)?;
    }
    Ok(())
}

// Prints the name and the cycle that is shown of the first n rows.
fn print_shown(rt: &impl Print, name: &[u8], t: &[u64], n: usize) -> io::Result<()>
    requires { (n ≤ 64) × (64 ≤ length t.now) }
{
    let mut out = [0u16; 64];
    printing::text(rt, name)?;
    printing::text(rt, b": shown")?;
    if let Some(k) = cycles::show(t, n, &mut out) {
        printing::list(rt, &out[..k])?;
    }
    printing::text(rt, b", expected")
}

// Adds the steps: three bytes each, two digits and a space.
fn put_steps(t: &mut [u64], steps: &[u8])
    requires { 64 ≤ length t.old }
{
    for step in steps.chunks(3) {
        if let [from, to, ..] = step {
            rows::link(t, digit(*from), digit(*to));
        }
    }
}

fn print_case(
    rt: &impl Print,
    name: &[u8],
    n: usize,
    steps: &[u8],
    expected: &[u8],
) -> io::Result<()>
    requires { n ≤ 64 }
{
    let mut t = [0u64; 64];
    put_steps(&mut t, steps);
    print_shown(rt, name, &t, n)?;
    printing::text(rt, expected)?;
    printing::text(rt, b"\n")
}

// Adds a step from each of 64 events to the next, and from the last to the first.
fn put_ring(t: &mut [u64])
    requires { 64 ≤ length t.old }
{
    for a in 0..64 {
        rows::link(t, a, (a + 1) % 64);
    }
}

// Adds a step from each of 64 events to each higher one.
fn put_order(t: &mut [u64])
    requires { 64 ≤ length t.old }
{
    for a in 0..64 {
        rows::add(t, a, Set::full(64) - Set::full(a + 1));
    }
}

fn print_ring(rt: &impl Print) -> io::Result<()> {
    let mut t = [0u64; 64];
    put_ring(&mut t);
    print_shown(rt, b"a ring of 64", &t, 64)?;
    print_below(rt, 64)?;
    printing::text(rt, b"\n")
}

fn print_order(rt: &impl Print) -> io::Result<()> {
    let mut t = [0u64; 64];
    put_order(&mut t);
    print_shown(rt, b"64 in order", &t, 64)?;
    printing::text(rt, b"\n")
}

// No cycle, and cycles of one event or two.
fn print_short_cycles(rt: &impl Print) -> io::Result<()> {
    print_case(rt, b"no events", 0, b"", b"")?;
    print_case(rt, b"no steps", 9, b"", b"")?;
    print_case(rt, b"a step to itself", 4, b"01 12 22", b" 2")?;
    print_case(rt, b"a step to itself after two", 4, b"01 10 33", b" 3")?;
    print_case(rt, b"there and back", 4, b"13 31", b" 1 3")?;
    print_case(rt, b"two of equal length", 5, b"23 32 14 41", b" 1 4")?;
    print_case(rt, b"two from one event", 4, b"03 30 02 20", b" 0 2")
}

// Which of several cycles is shown, and steps that close none.
fn print_longer_ways(rt: &impl Print) -> io::Result<()> {
    let least = b"three, the least not first";
    let shorter = b"the shorter, not the lower";
    let late = b"two that part late";
    let lost = b"a way that does not return";
    let slot = b"slot case S2 for processor 1";
    print_case(rt, least, 6, b"53 34 45", b" 3 4 5")?;
    print_case(rt, shorter, 5, b"01 12 20 34 43", b" 3 4")?;
    print_case(rt, late, 6, b"01 12 13 24 34 40", b" 0 1 2 4")?;
    print_case(rt, lost, 4, b"01 13 02 20", b" 0 2")?;
    print_case(rt, b"a cycle past the last event", 3, b"01 13 30", b"")?;
    print_case(rt, slot, 4, b"01 23 02 20 30", b" 0 2")
}

fn main(rt: HostRuntime) -> io::Result<()> {
    print_short_cycles(&rt)?;
    print_longer_ways(&rt)?;
    print_ring(&rt)?;
    print_order(&rt)
}
