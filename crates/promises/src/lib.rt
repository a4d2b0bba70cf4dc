// The customer's demands, as theorems about what the operations hand back. No code: specs/Promises states them on one page, citing
// definitions alone; proofs/Promises proves them.
#![tactic(auto)]
