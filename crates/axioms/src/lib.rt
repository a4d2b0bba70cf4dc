// Searches for what breaks the rules 20 to 23, 25 to 27, 30 and 31, over sets and tables of facts.
// Promises: each finds the least number that begins the evidence, or says that there is none.
#![tactic(auto)]

pub mod initial;
pub mod locked;
pub mod overwritten;
pub mod witness;
