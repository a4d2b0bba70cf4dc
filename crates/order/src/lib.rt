// Order theory: no code, and no bound on the number of events. Definitions in specs/, laws in proofs/.
// Promises: what a cycle and a chain are; which cycle is shown, and that there is one such at most; dictionary order;
// the least number with a property; the judgement of a list of rules, and that there is one such at most.
#![tactic(auto)]
