// The structure rules, 10 to 14, over the facts of a record.
// Promises: the judgement by the form rules and the structure rules; of a record that passes, a table of section 3.
#![tactic(auto)]

pub mod causes;
pub mod examine;
pub mod locks;
pub mod registers;
pub mod rules;
