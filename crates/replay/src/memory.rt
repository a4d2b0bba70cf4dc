// The memory state.
ghost use Rattle.std.specs.Prelude.{◌≡◌, List, ℕ, ◌+◌, ◌<◌, IfSome};
ghost use Rattle.rows.specs.Table.{HasRow};
ghost use Rattle.record.specs.Execution.{Execution};
ghost use Rattle.facts.specs.Facts.{Placed, Classed};
ghost use Rattle.sequences.specs.Sequence.{steps};
ghost use Rattle.replay.specs.Known.{StateAt, SourceBefore};

use crate::State;
use facts::Classes;
use rows::Set;

impl State {
    // The state before the first step: no place is written.
    pub fn new() -> State
        ensures { (z : Execution) (l : List ℕ) → StateAt z l 0 result }
    {
        State { last: Set::none() }
    }

    // The state after event e.
    pub fn step(self, q: &[u64], c: Classes, e: usize) -> State
        requires { HasRow q.now e × (e < 64) }
        ensures { (z : Execution) (l : List ℕ) (i : ℕ) → Placed z q.now → Classed z c → e < z.events.size → e ≡ (steps l).item i → StateAt z l i self → StateAt z l (i + 1) result }
    {
        if (c.stores | c.puts).has(e) {
            State {
                last: (self.last - rows::row(q, e)) | Set::one(e),
            }
        } else {
            self
        }
    }

    // The last write of r's place.
    pub fn source(self, q: &[u64], r: usize) -> Option<usize>
        requires { HasRow q.now r }
        ensures low { IfSome result (λ w. w < 64) }
        ensures source { (z : Execution) (l : List ℕ) (i : ℕ) → Placed z q.now → r < z.events.size → StateAt z l i self → SourceBefore z l i r result }
    {
        (self.last & rows::row(q, r)).first()
    }
}
