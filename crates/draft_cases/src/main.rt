// How many candidates are tried of drafts that end within their events or the count of these, which no published test writes. A line for
// each: how long it is, how many candidates were judged, how many got 0, and `open` where nothing can be said.
#![tactic(auto)]

use candidates::draft::Draft;
use candidates::{Final, Outcome, Tally, Trial};
use std::io;

// That address 100 has this value at last.
fn at_last(value: u32) -> Option<Final> {
    Some(Final { place: 100, value })
}

// Tries all candidates of the draft that has these bytes, and prints the line.
fn print_case(rt: &impl Print, bytes: &[u8], last: Option<Final>) -> io::Result<()> {
    let mut buffer = [0; 512];
    let mut draft = Draft::new(&mut buffer);
    draft.write(bytes);
    let trial = Trial::All;
    let mut tally = Tally::default();
    candidates::run(&mut draft, Outcome { trial, last }, &mut tally);
    printing::decimal(rt, draft.len())?;
    printing::text(rt, b" bytes:")?;
    printing::number(rt, tally.judged)?;
    printing::number(rt, tally.valid)?;
    printing::text(rt, if tally.open { b" open\n" } else { b"\n" })
}

fn main(rt: HostRuntime) -> io::Result<()> {
    // The draft ends within the address of its first store, and no order ends with the value that is asked for.
    print_case(&rt, &[1, 1, 2, 0, 0, 1, 0, 0, 0, 0], at_last(0))?;
    // It ends within the value of its store, which is not taken from what is written there later.
    let mut bytes = [0; 27];
    bytes[..4].copy_from_slice(&[1, 1, 3, 0]);
    bytes[8] = 9;
    bytes[12] = 9;
    bytes[17] = 1;
    bytes[20] = 100;
    print_case(&rt, &bytes, at_last(1 << 24))?;
    // The value of the store, the first of five events, is missing.
    print_case(&rt, &[1, 1, 5, 0, 0, 1, 1, 0, 0, 0, 0, 0], None)?;
    // No event is written: the count is, or half of it, or nothing.
    print_case(&rt, &[1, 2, 2, 0], None)?;
    print_case(&rt, &[1, 2, 2], None)?;
    print_case(&rt, &[], None)
}
