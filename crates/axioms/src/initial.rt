// Rule 26: a read without a source takes the initial value.
ghost use Rattle.std.specs.Prelude.{ℕ, ◌<◌};
ghost use Rattle.order.specs.Least.{Found};
ghost use Rattle.rows.specs.Members.{In, Is};
ghost use Rattle.rows.specs.Table.{HasRow};
ghost use Rattle.form.specs.Right.{Right};
ghost use Rattle.record.specs.Execution.{Execution};
ghost use Rattle.record.specs.Says.{execution_of};
ghost use Rattle.record.specs.Laid.{Stands};
ghost use Rattle.model.specs.Model.{Reads, Sourced};
ghost use Rattle.axioms.specs.Scene.{Scene};
ghost use Rattle.axioms.specs.Faults.{WrongFrom, Coded, code, Precedes};

use facts::Classes;
use record::Part;
use record::events::event_of;
use record::lists::{initial_for, value_of};
use rows::Set;

// The initial value of a read's place: there is none, or it is another than the read's, or the same.
#[derive(Clone, Copy, PartialEq, Eq)]
pub enum Start {
    Absent,
    Other,
    Same,
}

// How the initial value of r's place stands to r's value.
pub fn start_of(s: &[u8], initials: Part, r: usize) -> Start
    requires { Right s.now × Stands s.now 5 initials × (r < (execution_of s.now).events.size) }
    ensures { Coded (execution_of s.now) r (code result) }
{
    let x = event_of(s, r);
    match initial_for(s, initials, x) {
        None => Start::Absent,
        Some(i) if value_of(s, initials, i) == x.value => Start::Same,
        Some(_) => Start::Other,
    }
}

// The writes of r's place that stand before r.
pub fn preceding(t: &[u64], q: &[u64], c: Classes, seen: Set, r: usize) -> Set
    requires { HasRow t.now r × HasRow q.now r }
    ensures { (z : Execution) (p : ℕ) → Scene z p t.now q.now c seen → In seen r → Reads (z.events.item r) → Is result (Precedes z p r) }
{
    let writes = (c.stores | c.puts) & rows::row(q, r);
    (writes & seen) - rows::row(t, r)
}

// The least read without a source that breaks the rule. The events with a source are `sourced`.
pub fn uninitial(
    s: &[u8],
    initials: Part,
    t: &[u64],
    q: &[u64],
    c: Classes,
    sourced: Set,
    seen: Set,
) -> Option<usize>
    requires right { Right s.now × Stands s.now 5 initials × ((p : ℕ) × Scene (execution_of s.now) p t.now q.now c seen) }
    requires is { Is sourced (Sourced (execution_of s.now)) }
    ensures { (p : ℕ) → Scene (execution_of s.now) p t.now q.now c seen → Found 64 (WrongFrom (execution_of s.now) p) result }
{
    let reads = (c.loads | c.gets) & seen;
    for r in reads - sourced {
        if start_of(s, initials, r) != Start::Same || preceding(t, q, c, seen, r).any() {
            return Some(r);
        }
    }
    None
}
