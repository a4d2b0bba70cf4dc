// The questions. What a question is asked with is read first, then what is expected; the expected entries go into a buffer that has the
// mark too, so that all entries are compared. A question that lists or lends more entries than the buffers here hold cannot be asked: it
// has no answer and no entries.
use crate::input;
use crate::tally::{Operation, Tally};
use reader::Entry;
use record::Verdict;
use std::io::Read;

// The marks of the buffers for numbers, bytes and words.
const SHORT: u16 = 48879;

const BYTE: u8 = 165;

const WORD: u64 = 11936128518282651045;

// The input that the questions are read from, and how they were answered.
#[derive(Drop)]
pub struct Questions<R> {
    pub input: R,
    pub tally: Tally,
}

// The answer and the count; of what could not be asked, none and 0.
fn parts(given: Option<Verdict>) -> (Option<u16>, usize) {
    given.map_or((None, 0), |v| (Some(v.answer), v.count))
}

// Whether the next k entries of the part are the expected ones, and then there is none.
fn same_items(input: &mut impl Read, part: &[u8], k: usize) -> bool {
    let mut right = true;
    let mut at: usize = 0;
    for _ in 0..k {
        let due = Entry {
            section: input::short(input),
            at: input::number(input),
            len: input::number(input),
        };
        right = right && reader::item_at(part, at) == Some(due);
        at = due.at.wrapping_add(due.len);
    }
    right && reader::item_at(part, at).is_none()
}

impl<R: Read> Questions<R> {
    // The expected answer and count, which are next.
    fn due(&mut self) -> (Option<u16>, usize) {
        let answer = input::answer(&mut self.input);
        (answer, input::number(&mut self.input))
    }

    // Holds what came out to what is expected next.
    fn hold(&mut self, operation: Operation, given: Option<Verdict>, evidence: &[u16; 80]) {
        let (answer, k) = self.due();
        let mut due = [SHORT; 80];
        input::shorts(&mut self.input, &mut due, k);
        let right = parts(given) == (answer, k) && *evidence == due;
        self.tally.count_answer(operation, answer, right);
    }

    fn ask_check(&mut self, s: &[u8]) {
        let room = input::number(&mut self.input);
        let mut evidence = [SHORT; 80];
        let given = evidence
            .get_mut(..room)
            .map(|lent| judge::check::check(s, lent));
        self.hold(Operation::Check, given, &evidence);
    }

    fn ask_replay(&mut self, s: &[u8]) {
        let m = input::number(&mut self.input);
        let mut numbers = [0u16; 80];
        let list = input::shorts(&mut self.input, &mut numbers, m);
        let room = input::number(&mut self.input);
        let mut evidence = [SHORT; 80];
        let given = list.and_then(|list| {
            let lent = evidence.get_mut(..room)?;
            Some(replay::replay::replay(s, list, lent))
        });
        self.hold(Operation::Replay, given, &evidence);
    }

    fn ask_read_off(&mut self, s: &[u8]) {
        let m = input::number(&mut self.input);
        let mut numbers = [0u16; 80];
        let list = input::shorts(&mut self.input, &mut numbers, m);
        let room = input::number(&mut self.input);
        let mut out = [BYTE; 2400];
        let given = list.and_then(|list| {
            let lent = out.get_mut(..room)?;
            Some(readoff::read_off::read_off(s, list, lent))
        });
        let (answer, k) = self.due();
        let mut due = [BYTE; 2400];
        input::bytes(&mut self.input, &mut due, k);
        let right = parts(given) == (answer, k) && out == due;
        self.tally.count_answer(Operation::ReadOff, answer, right);
    }

    fn ask_table(&mut self, s: &[u8]) {
        let room = input::number(&mut self.input);
        let mut table = [WORD; 70];
        let given = table
            .get_mut(..room)
            .map(|lent| table::order_table(s, lent));
        let (answer, k) = self.due();
        let mut due = [WORD; 70];
        input::words(&mut self.input, &mut due, k);
        let right = given == answer && table == due;
        self.tally.count_answer(Operation::Table, answer, right);
    }

    fn ask_view(&mut self, s: &[u8]) {
        let p = input::short(&mut self.input);
        let (given, part) = match record::view::view(s, p) {
            Ok(part) => (0, part),
            Err(refusal) => (refusal.answer(), &s[..0]),
        };
        let (answer, k) = self.due();
        let mut due = [0u8; 64];
        input::bytes(&mut self.input, &mut due, k);
        let right = Some(given) == answer && due.get(..k) == Some(part);
        self.tally.count_answer(Operation::View, answer, right);
    }

    fn ask_reader(&mut self, s: &[u8]) {
        let (given, part) = match reader::opened(s) {
            Ok(part) => (0, part),
            Err(fault) => (fault.answer, &s[..0]),
        };
        let (answer, k) = self.due();
        let same = same_items(&mut self.input, part, k);
        let right = Some(given) == answer && same;
        self.tally.count_answer(Operation::Reader, answer, right);
    }

    // Asks the next question.
    fn ask(&mut self, s: &[u8]) {
        match Operation::numbered(input::byte(&mut self.input)) {
            Some(Operation::Check) => self.ask_check(s),
            Some(Operation::Replay) => self.ask_replay(s),
            Some(Operation::ReadOff) => self.ask_read_off(s),
            Some(Operation::Table) => self.ask_table(s),
            Some(Operation::View) => self.ask_view(s),
            Some(Operation::Reader) => self.ask_reader(s),
            None => self.tally.count(false),
        }
    }

    // Asks the questions about the record, after their number.
    pub fn ask_all(&mut self, s: &[u8]) {
        for _ in 0..input::number(&mut self.input) {
            self.ask(s);
        }
    }
}
