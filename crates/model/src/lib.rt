// x86-CC: the words of the model and the rules 20 to 27, as document 01 has them, and the model of the HOL specification. No code.
// Promises: definitions, and that the two agree on every record that passes form and structure.
#![tactic(auto)]
