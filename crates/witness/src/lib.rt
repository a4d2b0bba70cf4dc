// The rules 20 to 23, about the lists of the witness: each function judges by the rules from its number on.
// Promises: the judgement by these rules, handed out as an answer and as evidence in the lent buffer (`Given`).
//
// The tables: f the events by processor and kind, q by place. c are the events by class.
#![tactic(auto)]

ghost use Rattle.std.specs.Prelude.{◌≤◌, length, drop};
ghost use Rattle.order.specs.Rule.{Judged};
ghost use Rattle.order.specs.Evidence.{Given};
ghost use Rattle.form.specs.Right.{Right};
ghost use Rattle.record.specs.Refusals.{answer_of, count_of};
ghost use Rattle.record.specs.Says.{execution_of};
ghost use Rattle.record.specs.Laid.{Stands};
ghost use Rattle.facts.specs.Facts.{Sorted, Placed, Classed, Ready};
ghost use Rattle.model.specs.Rules.{witness_rules};

use axioms::witness::{mismatched, misplaced};
use facts::Classes;
use record::lists::{reader_of, source_of, view_of};
use record::refusal::Refusal;
use record::{Layout, Part};
use rows::Set;

fn from_twentythree(
    s: &[u8],
    sources: Part,
    q: &[u64],
    c: Classes,
    ev: &mut [u16],
) -> Result<(), Refusal>
    requires { Right s.now × Stands s.now 8 sources × Placed (execution_of s.now) q.now × Classed (execution_of s.now) c × (65 ≤ length ev.old) }
    ensures { Given (Judged (drop 3 (witness_rules (execution_of s.now)))) ev.old ev.new (answer_of result) (count_of result) }
{
    if let Some(i) = mismatched(s, sources, q, c) {
        ev[0] = source_of(s, sources, i) as u16;
        ev[1] = reader_of(s, sources, i) as u16;
        return Err(Refusal {
            answer: 23,
            count: 2,
        });
    }
    Ok(())
}

fn from_twentytwo(s: &[u8], l: Layout, q: &[u64], c: Classes, ev: &mut [u16]) -> Result<(), Refusal>
    requires { Ready s.now l q.now c × (65 ≤ length ev.old) }
    ensures { Given (Judged (drop 2 (witness_rules (execution_of s.now)))) ev.old ev.new (answer_of result) (count_of result) }
{
    let due = Set::full(l.locks.count);
    if let Some(i) = misplaced(s, l.lockorder, due) {
        ev[0] = i as u16;
        return Err(Refusal {
            answer: 22,
            count: 1,
        });
    }
    from_twentythree(s, l.sources, q, c, ev)
}

fn from_twentyone(s: &[u8], l: Layout, q: &[u64], c: Classes, ev: &mut [u16]) -> Result<(), Refusal>
    requires { Ready s.now l q.now c × (65 ≤ length ev.old) }
    ensures { Given (Judged (drop 1 (witness_rules (execution_of s.now)))) ev.old ev.new (answer_of result) (count_of result) }
{
    if let Some(e) = misplaced(s, l.stores, c.stores) {
        ev[0] = e as u16;
        return Err(Refusal {
            answer: 21,
            count: 1,
        });
    }
    from_twentytwo(s, l, q, c, ev)
}

// The witness rules of a record whose facts are gathered.
pub fn witness(
    s: &[u8],
    l: Layout,
    f: &[u64],
    q: &[u64],
    c: Classes,
    ev: &mut [u16],
) -> Result<(), Refusal>
    requires { Ready s.now l q.now c × Sorted (execution_of s.now) f.now × (65 ≤ length ev.old) }
    ensures { Given (Judged (witness_rules (execution_of s.now))) ev.old ev.new (answer_of result) (count_of result) }
{
    let mut at = l.views;
    for p in 0..l.processors {
        let view = view_of(s, p, at);
        let due = rows::row(f, p) | c.stores;
        if let Some(e) = misplaced(s, view, due) {
            ev[0] = p as u16;
            ev[1] = e as u16;
            return Err(Refusal {
                answer: 20,
                count: 2,
            });
        }
        at = view.at + view.count;
    }
    from_twentyone(s, l, q, c, ev)
}
