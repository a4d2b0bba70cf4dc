// The replay: a sequence of events is performed step by step on a memory state. Rules 28 to 33.
// Promises: for every byte string, every list and every lent buffer the answer, its evidence, and every entry of the buffer; of what
// keeps the rules up to 31, its numbers as bytes and its order as a table.
#![tactic(auto)]

use rows::Set;

pub mod memory;
pub mod replay;
pub mod sequence;
pub mod steps;

// The memory state: of each place that is written, its last write.
#[derive(Clone, Copy, PartialEq, Eq)]
pub struct State {
    pub last: Set,
}
