// Runs the published tests of standard input, which says how they are written. A line for each: its name, how many candidate
// witnesses were judged, how many of them got 0, what that makes of the outcome, and what the paper says of it.
#![tactic(auto)]

use crate::text::{Line, Lines};
use candidates::{Tally, Trial};
use std::io;

mod structures;
mod text;

// What the candidates make of an outcome.
#[derive(Clone, Copy)]
enum Found {
    Open,
    Allowed,
    Forbidden,
}

impl Found {
    // What the tally says.
    fn of(tally: Tally) -> Found {
        if tally.open {
            Found::Open
        } else if 0 < tally.valid {
            Found::Allowed
        } else {
            Found::Forbidden
        }
    }

    // Its name in print, between two spaces: it goes out in one write.
    fn name(self) -> &'static [u8] {
        match self {
            Found::Open => b" open ",
            Found::Allowed => b" allowed ",
            Found::Forbidden => b" forbidden ",
        }
    }

    // Whether that is what the paper says.
    fn agrees(self, paper: &[u8]) -> bool {
        match self {
            Found::Open => false,
            Found::Allowed => paper.first() == Some(&b'a'),
            Found::Forbidden => paper.first() == Some(&b'f'),
        }
    }
}

// Prints what was found of the test that the line begins.
fn print_test(rt: &impl Print, head: Line, tally: Tally) -> io::Result<()> {
    printing::text(rt, head.word(1))?;
    printing::number(rt, tally.judged)?;
    printing::number(rt, tally.valid)?;
    printing::text(rt, Found::of(tally).name())?;
    printing::text(rt, head.word(2))?;
    printing::text(rt, b"\n")
}

// Runs the test that the line begins.
fn run(head: Line) -> Tally {
    let trial = match head.word(3).first() {
        Some(b'a') => Trial::All,
        _ => Trial::ByView,
    };
    let mut tally = Tally::default();
    let mut structure = head.rest;
    for line in Lines(head.rest) {
        match line.letter() {
            Some(b't') => break,
            Some(b'e') => {
                structures::run(structure, trial, &mut tally);
                structure = line.rest;
            }
            _ => {}
        }
    }
    tally
}

// Runs the tests and says how many there were, and how many came out as published.
fn run_all(rt: &impl Print, text: &[u8]) -> io::Result<()> {
    let mut tests: u64 = 0;
    let mut agreed: u64 = 0;
    for line in Lines(text) {
        if line.begins_with(b't') {
            let tally = run(line);
            print_test(rt, line, tally)?;
            tests = tests.wrapping_add(1);
            if Found::of(tally).agrees(line.word(2)) {
                agreed = agreed.wrapping_add(1);
            }
        }
    }
    printing::decimal(rt, tests)?;
    printing::text(rt, b" tests,")?;
    printing::number(rt, agreed)?;
    printing::text(rt, b" as published\n")
}

fn main(rt: HostRuntime) -> io::Result<()> {
    let mut buffer = [0u8; 16384];
    let count = printing::read_full(&mut rt.stdin(), &mut buffer);
    run_all(&rt, &buffer[..count])
}
