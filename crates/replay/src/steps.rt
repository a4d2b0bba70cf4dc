// Rules 32 and 33: the order of the steps, and their values.
ghost use Rattle.std.specs.Prelude.{ℕ, ◌≤◌, ◌<◌, ◌≡◌, List, length};
ghost use Rattle.order.specs.Decides.{Decides};
ghost use Rattle.order.specs.Least.{Found};
ghost use Rattle.order.specs.Rule.{Any, AllKept};
ghost use Rattle.rows.specs.Members.{Is};
ghost use Rattle.rows.specs.Table.{HasRow, HasRows};
ghost use Rattle.form.specs.Right.{Right};
ghost use Rattle.record.specs.Execution.{Execution};
ghost use Rattle.record.specs.Formed.{Formed};
ghost use Rattle.record.specs.Says.{execution_of};
ghost use Rattle.record.specs.Laid.{Stands};
ghost use Rattle.facts.specs.Facts.{Placed, Classed};
ghost use Rattle.structure.specs.Structure.{structure_rules};
ghost use Rattle.sequences.specs.Sequence.{Holds, Reversed, Differs};
ghost use Rattle.replay.specs.Known.{Narrowed, Sequenced, Programmed, StateAt};

use crate::State;
use axioms::initial::{Start, start_of};
use facts::Classes;
use form::bytes::num1;
use record::Part;
use record::events::event_of;
use rows::Set;

// The events that a is before, and that stand earlier in the list.
pub fn against(t: &[u64], u: &[u64], a: usize) -> Set
    requires { HasRow t.now a × HasRow u.now a }
    ensures { (z : Execution) (l b : List ℕ) → Formed z → AllKept (structure_rules z) → Programmed z t.now → Sequenced z l b u.now → Is result (Reversed z l a) }
{
    rows::row(t, a) - rows::row(u, a)
}

// 32: the least of the first n events that is before one that stands earlier in the list.
pub fn reversed(t: &[u64], u: &[u64], n: usize) -> Option<usize>
    requires { HasRows t.now 64 × HasRows u.now 64 × (n ≤ 64) }
    ensures { (z : Execution) (l b : List ℕ) → Formed z → AllKept (structure_rules z) → Programmed z t.now → Sequenced z l b u.now → n ≡ z.events.size → Found 64 (λ a. Any 1 (Reversed z l a)) result }
{
    for a in 0..n {
        if against(t, u, a).any() {
            return Some(a);
        }
    }
    None
}

// Whether the read r has the value that its place holds.
fn agrees(s: &[u8], initials: Part, q: &[u64], state: State, r: usize) -> bool
    requires right { Right s.now × Stands s.now 5 initials × Placed (execution_of s.now) q.now × (r < (execution_of s.now).events.size) }
    requires by_index { (l : List ℕ) × ((i : ℕ) × StateAt (execution_of s.now) l i state) }
    ensures { (l : List ℕ) (i : ℕ) → StateAt (execution_of s.now) l i state → Decides result (Holds (execution_of s.now) l i r ((execution_of s.now).events.item r).value) }
{
    match state.source(q, r) {
        Some(w) => event_of(s, w).value == event_of(s, r).value,
        None => start_of(s, initials, r) == Start::Same,
    }
}

// 33: the first step that is a read whose value differs from the memory state. The numbers of the list are the first n bytes of b.
pub fn differing(
    s: &[u8],
    initials: Part,
    q: &[u64],
    c: Classes,
    b: &[u8],
    n: usize,
) -> Option<usize>
    requires right { Right s.now × Stands s.now 5 initials × Placed (execution_of s.now) q.now × Classed (execution_of s.now) c }
    requires by_index { (l : List ℕ) × Narrowed (execution_of s.now).events.size l b.now × (n ≡ length l) }
    ensures { (l : List ℕ) → Narrowed (execution_of s.now).events.size l b.now → n ≡ length l → Found n (Differs (execution_of s.now) l) result }
{
    let reads = c.loads | c.gets;
    let mut state = State::new();
    for i in 0..n {
        let e = num1(b, i);
        if reads.has(e) && !agrees(s, initials, q, state, e) {
            return Some(i);
        }
        state = state.step(q, c, e);
    }
    None
}
