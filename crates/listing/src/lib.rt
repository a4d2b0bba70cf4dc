// The listing of a record: its answer, its evidence, and how many events each event happens directly before, as text.
// Promises: for every byte string and every lent buffer the length of the text, and every byte of the buffer.
#![tactic(auto)]

pub mod listing;
pub mod numbers;
