// The orders that happens-before joins, added to a table of rows.
// Promises: which steps each adds, in the words of the model.
#![tactic(auto)]

pub mod lists;
pub mod preserved;
pub mod union;
