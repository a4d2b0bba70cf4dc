// The slot cases of the specification that are proved from the rules. No code: specs/Slots has the table and what it says, proofs/Slots
// the theorem that each of its rows holds.
#![tactic(auto)]
