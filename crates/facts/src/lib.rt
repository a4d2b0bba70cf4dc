// What the rules ask of events, gathered once into sets: the events by processor and kind, at one place, of a locked instruction.
// Promises: what each row of a table has, in the words of the execution.
#![tactic(auto)]

use rows::Set;

pub mod gather;
pub mod kinds;
pub mod lists;
pub mod locks;
pub mod places;
pub mod sets;
pub mod sorts;

// The memory loads, the memory stores, the register reads, the register writes, and the events of locked instructions.
#[derive(Clone, Copy)]
pub struct Classes {
    pub loads: Set,
    pub stores: Set,
    pub gets: Set,
    pub puts: Set,
    pub locked: Set,
}
