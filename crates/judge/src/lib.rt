// The judge: rules 24 to 27, and the check.
// Promises: for every byte string and every lent buffer the answer, its evidence, and every entry of the buffer.
//
// The tables, by the letter they have everywhere: f the events by processor and kind, q by place, k by locked entry, m those of one
// locked instruction, u the pairs of section 8, h happens-before, t the table at hand. c are the events by class, g what is known besides.
#![tactic(auto)]

use facts::Classes;
use record::Layout;
use rows::Set;

pub mod arranged;
pub mod check;
pub mod closer;
pub mod views;

// What the rules about the orders know of a record besides its tables: where its sections stand, its events by class, and those with a source.
#[derive(Clone, Copy)]
pub struct Known {
    pub layout: Layout,
    pub classes: Classes,
    pub sourced: Set,
}

// The rules after 24, each of which is judged in one view after the other.
#[derive(Clone, Copy, PartialEq, Eq)]
pub enum Later {
    Overwritten,
    Uninitial,
    Torn,
}

// A look at a view: a cycle, and how many entries the evidence against rule 24 has; or none, and whether the view is calm: it keeps the rules after 24.
#[derive(Clone, Copy, PartialEq, Eq)]
pub enum Look {
    Cycle(usize),
    Acyclic { calm: bool },
}
