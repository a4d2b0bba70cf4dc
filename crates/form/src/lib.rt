// Reading: whether a byte string is a record of form 1, and where its parts stand.
// Promises: for every byte string the first fault that reading meets, with its section and byte, or that there is none (`whole`);
// of a record without a fault everything that `Right` gathers. Numbers are read in place.
#![tactic(auto)]

pub mod bytes;
pub mod chain;
pub mod entry;
pub mod glance;
pub mod place;
pub mod whole;

// What the field tests need of a record: its processors, events and locked instructions.
#[derive(Clone, Copy)]
pub struct Counts {
    pub processors: usize,
    pub events: usize,
    pub locks: usize,
}

// A refusal: the answer, the section and the place of the first byte of what is at fault. Answer and section are the numbers of the
// definition `stop` and of the evidence; names for them would be turned back into these numbers at each use.
#[derive(Clone, Copy, Debug, PartialEq, Eq)]
pub struct Fault {
    pub answer: u16,
    pub section: u16,
    pub at: usize,
}
