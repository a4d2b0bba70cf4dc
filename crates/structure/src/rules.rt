// The structure rules, 10 to 14: each function judges by the rules from its number on.
ghost use Rattle.std.specs.Prelude.{◌≤◌, ◌<◌, ◌≡◌, length, drop, IfOk};
ghost use Rattle.order.specs.Least.{None};
ghost use Rattle.order.specs.Rule.{Judged};
ghost use Rattle.order.specs.Evidence.{Given};
ghost use Rattle.rows.specs.Table.{HasRows};
ghost use Rattle.record.specs.Execution.{Execution};
ghost use Rattle.record.specs.Refusals.{answer_of, count_of};
ghost use Rattle.record.specs.Says.{execution_of};
ghost use Rattle.facts.specs.Facts.{Blank, Entered, Ready};
ghost use Rattle.structure.specs.Held.{Held};
ghost use Rattle.structure.specs.Structure.{Eventless, structure_rules};

use crate::causes::{joining, pair, put_causes};
use crate::locks::{eventless, repeated};
use crate::registers::{unordered, unordered_with};
use facts::Classes;
use record::Layout;
use record::refusal::Refusal;

// Of g entries; row i of k has the events of entry i.
fn from_fourteen(k: &[u64], g: usize, ev: &mut [u16]) -> Result<(), Refusal>
    requires { HasRows k.now g × (g ≤ 16) × (65 ≤ length ev.old) }
    ensures { (x : Execution) → Entered x k.now → g ≡ x.locks.size → None g (Eventless x) → Given (Judged (drop 4 (structure_rules x))) ev.old ev.new (answer_of result) (count_of result) }
{
    if let Some(i) = repeated(k, g) {
        ev[0] = i as u16;
        return Err(Refusal {
            answer: 14,
            count: 1,
        });
    }
    Ok(())
}

fn from_thirteen(k: &[u64], g: usize, ev: &mut [u16]) -> Result<(), Refusal>
    requires { HasRows k.now g × (g ≤ 16) × (65 ≤ length ev.old) }
    ensures { (x : Execution) → Entered x k.now → g ≡ x.locks.size → Given (Judged (drop 3 (structure_rules x))) ev.old ev.new (answer_of result) (count_of result) }
{
    if let Some(i) = eventless(k, g) {
        ev[0] = i as u16;
        return Err(Refusal {
            answer: 13,
            count: 1,
        });
    }
    from_fourteen(k, g, ev)
}

// The table t has the pairs of section 3.
fn from_twelve(
    s: &[u8],
    l: Layout,
    q: &[u64],
    k: &[u64],
    c: Classes,
    t: &[u64],
    ev: &mut [u16],
) -> Result<(), Refusal>
    requires { Ready s.now l q.now c × Entered (execution_of s.now) k.now × Held (execution_of s.now) t.now × (65 ≤ length ev.old) }
    ensures { Given (Judged (drop 2 (structure_rules (execution_of s.now)))) ev.old ev.new (answer_of result) (count_of result) }
{
    if let Some(a) = unordered(s, t, q, c.gets | c.puts) {
        // There is such an event: a was found as having one.
        let b = unordered_with(s, t, q, a).unwrap();
        ev[0] = a as u16;
        ev[1] = b as u16;
        return Err(Refusal {
            answer: 12,
            count: 2,
        });
    }
    from_thirteen(k, l.locks.count, ev)
}

fn from_eleven(
    s: &[u8],
    l: Layout,
    q: &[u64],
    k: &[u64],
    c: Classes,
    t: &mut [u64],
    ev: &mut [u16],
) -> Result<(), Refusal>
    requires { Ready s.now l q.now c × Entered (execution_of s.now) k.now × (HasRows t.old 64 × Blank t.old) × (65 ≤ length ev.old) }
    ensures held { Held (execution_of s.now) t.new }
    ensures given { Given (Judged (drop 1 (structure_rules (execution_of s.now)))) ev.old ev.new (answer_of result) (count_of result) }
{
    put_causes(s, l.causes, t);
    if let Some(count) = cycles::show(t, l.events, ev) {
        return Err(Refusal { answer: 11, count });
    }
    from_twelve(s, l, q, k, c, t, ev)
}

// The structure rules of a record whose facts are gathered. Where it passes, the table t then has the pairs of section 3.
pub fn structure(
    s: &[u8],
    l: Layout,
    q: &[u64],
    k: &[u64],
    c: Classes,
    t: &mut [u64],
    ev: &mut [u16],
) -> Result<(), Refusal>
    requires { Ready s.now l q.now c × Entered (execution_of s.now) k.now × (HasRows t.old 64 × Blank t.old) × (65 ≤ length ev.old) }
    ensures held { IfOk result (λ _. Held (execution_of s.now) t.new) }
    ensures given { Given (Judged (structure_rules (execution_of s.now))) ev.old ev.new (answer_of result) (count_of result) }
{
    if let Some(i) = joining(s, l.causes) {
        let (from, to) = pair(s, l.causes, i);
        ev[0] = from as u16;
        ev[1] = to as u16;
        return Err(Refusal {
            answer: 10,
            count: 2,
        });
    }
    from_eleven(s, l, q, k, c, t, ev)
}
