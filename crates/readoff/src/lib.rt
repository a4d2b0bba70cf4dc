// The read-off: the record whose witness follows a sequence of events.
// Promises: for every byte string, every list and every lent buffer the answer, the length, and every byte of the buffer; what is
// written passes form and structure, and the check says of it what the replay says of the sequence.
#![tactic(auto)]

pub mod bytes;
pub mod read_off;
pub mod sections;
