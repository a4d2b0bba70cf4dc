// Asks the judge the questions of standard input and holds its answers to the expected ones: the answer, the count, and every entry of
// the lent buffer. A line for each operation and each answer that was expected of it, with how often; then how many questions there
// were, and how many of them were answered otherwise.
//
// A record's length in two bytes and its bytes, how many questions follow in two bytes, then these: the operation in one byte, what it is
// asked with, the answer, the count, and as many entries. Before a call all entries have a mark; those behind the count keep it.
// An expected answer of 64 stands for none, as where the question cannot be asked.
#![tactic(auto)]

use ask::Questions;
use printing::read_full;
use std::io;
use std::io::Read;
use tally::Tally;

mod ask;
mod input;
mod tally;

// Reads a record into the buffer; none at the end.
fn next_record<'a>(input: &mut impl Read, buffer: &'a mut [u8]) -> Option<&'a [u8]> {
    let mut two = [0u8; 2];
    if read_full(input, &mut two) < 2 {
        return None;
    }
    let part = buffer.get_mut(..form::bytes::count_at(&two, 0))?;
    read_full(input, part);
    Some(part)
}

fn main(rt: HostRuntime) -> io::Result<()> {
    let mut buffer = [0u8; 4096];
    let mut questions = Questions {
        input: rt.stdin(),
        tally: Tally::new(),
    };
    // A loop has to end, and the input need not: at most so many records are read.
    for _ in 0..1000000 {
        match next_record(&mut questions.input, &mut buffer) {
            Some(record) => questions.ask_all(record),
            None => return questions.tally.print(&rt),
        }
    }
    Ok(())
}
