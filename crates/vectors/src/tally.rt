// What was asked and how it was answered.
use std::io;

// The operations, as the input numbers them from 1 on.
#[derive(Clone, Copy)]
pub enum Operation {
    Check,
    Replay,
    ReadOff,
    Table,
    View,
    Reader,
}

impl Operation {
    // All, in the order of their numbers.
    pub const ALL: [Operation; 6] = [
        Operation::Check,
        Operation::Replay,
        Operation::ReadOff,
        Operation::Table,
        Operation::View,
        Operation::Reader,
    ];

    // The operation with this number.
    pub fn numbered(number: u8) -> Option<Operation> {
        match number {
            1 => Some(Operation::Check),
            2 => Some(Operation::Replay),
            3 => Some(Operation::ReadOff),
            4 => Some(Operation::Table),
            5 => Some(Operation::View),
            6 => Some(Operation::Reader),
            _ => None,
        }
    }

    fn name(self) -> &'static [u8] {
        match self {
            Operation::Check => b"check",
            Operation::Replay => b"replay",
            Operation::ReadOff => b"read-off",
            Operation::Table => b"order-table",
            Operation::View => b"view",
            Operation::Reader => b"reader",
        }
    }
}

// How many questions there were, how many of them were answered otherwise than expected, and how often each answer was expected of each
// operation.
#[derive(Drop)]
pub struct Tally {
    cases: u64,
    differing: u64,
    expected: [[u64; 64]; 6],
}

impl Tally {
    pub fn new() -> Tally {
        Tally {
            cases: 0,
            differing: 0,
            expected: [[0; 64]; 6],
        }
    }

    // One more question.
    pub fn count(&mut self, right: bool) {
        self.cases = self.cases.wrapping_add(1);
        if !right {
            self.differing = self.differing.wrapping_add(1);
        }
    }

    // One more question about an operation, of which this answer was expected.
    pub fn count_answer(&mut self, operation: Operation, answer: Option<u16>, right: bool) {
        self.count(right);
        let row = &mut self.expected[operation as usize];
        if let Some(often) = answer.and_then(|a| row.get_mut(usize::from(a))) {
            *often = often.wrapping_add(1);
        }
    }

    // The lines of an operation.
    fn print_lines(&self, rt: &impl Print, operation: Operation) -> io::Result<()> {
        let row = &self.expected[operation as usize];
        for (answer, often) in row.iter().enumerate() {
            if 0 < *often {
                printing::text(rt, operation.name())?;
                printing::number(rt, answer)?;
                printing::number(rt, *often)?;
                printing::text(rt, b"\n")?;
            }
        }
        Ok(())
    }

    pub fn print(&self, rt: &impl Print) -> io::Result<()> {
        for operation in Operation::ALL {
            self.print_lines(rt, operation)?;
        }
        printing::decimal(rt, self.cases)?;
        printing::text(rt, b" cases,")?;
        printing::number(rt, self.differing)?;
        printing::text(rt, b" differ\n")
    }
}
