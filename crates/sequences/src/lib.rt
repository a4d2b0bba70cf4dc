// Sequences of events: the memory state along a list, the rules 28 to 33, and the execution whose witness follows a list. No code.
// Promises: definitions, that the replay of a list says of it what the check says of the execution that is read off (demand 3), and that it
// accepts exactly the valid sequential executions of the HOL specification.
#![tactic(auto)]
