// The operation: the rules 28 to 33 behind form and structure.
ghost use Rattle.std.specs.Prelude.{ℕ, ◌≤◌, List, ◌++◌, length, drop};
ghost use Rattle.order.specs.Rule.{Judged, AllKept};
ghost use Rattle.order.specs.Evidence.{Given};
ghost use Rattle.form.specs.Right.{Right};
ghost use Rattle.record.specs.Refusals.{answer_of, count_of};
ghost use Rattle.record.specs.Says.{execution_of};
ghost use Rattle.record.specs.Laid.{Laid};
ghost use Rattle.facts.specs.Facts.{Sorted, Ready, Gathered};
ghost use Rattle.structure.specs.Held.{Held};
ghost use Rattle.structure.specs.Structure.{structure_rules};
ghost use Rattle.sequences.specs.Sequence.{step_rules, replay_rules};
ghost use Rattle.replay.specs.Known.{Sequenced};
ghost use Rattle.replay.specs.Replayed.{Replayed};

use crate::sequence::sequence;
use crate::steps::{against, differing, reversed};
use facts::Classes;
use facts::gather::gather;
use form::bytes::num1;
use form::whole::whole;
use orders::preserved::put_preserved;
use record::refusal::Refusal;
use record::sections::layout;
use record::{Layout, Verdict};
use structure::rules::structure;

// Rule 33. The numbers of the list are the first bytes of b.
fn from_thirtythree(
    s: &[u8],
    l: Layout,
    q: &[u64],
    c: Classes,
    b: &[u8],
    list: &[u16],
    ev: &mut [u16],
) -> Result<(), Refusal>
    requires { Ready s.now l q.now c × ((u : List ℕ) × Sequenced (execution_of s.now) list.now b.now u) × (65 ≤ length ev.old) }
    ensures { Given (Judged (drop 1 (step_rules (execution_of s.now) list.now))) ev.old ev.new (answer_of result) (count_of result) }
{
    if let Some(i) = differing(s, l.initials, q, c, b, l.events) {
        ev[0] = num1(b, i) as u16;
        return Err(Refusal {
            answer: 33,
            count: 1,
        });
    }
    Ok(())
}

// The rules 32 and 33. The table t has section 3; b and u have the list.
fn from_thirtytwo(
    s: &[u8],
    l: Layout,
    f: &[u64],
    q: &[u64],
    c: Classes,
    t: &mut [u64],
    b: &[u8],
    u: &[u64],
    list: &[u16],
    ev: &mut [u16],
) -> Result<(), Refusal>
    requires ready { Ready s.now l q.now c × Sorted (execution_of s.now) f.now × Held (execution_of s.now) t.old × AllKept (structure_rules (execution_of s.now)) }
    requires sequenced { Sequenced (execution_of s.now) list.now b.now u.now × (65 ≤ length ev.old) }
    ensures { Given (Judged (step_rules (execution_of s.now) list.now)) ev.old ev.new (answer_of result) (count_of result) }
{
    put_preserved(s, f, q, c, t);
    if let Some(a) = reversed(t, u, l.events) {
        // There is one: that is what a was found by.
        let b = against(t, u, a).first().unwrap();
        ev[0] = a as u16;
        ev[1] = b as u16;
        return Err(Refusal {
            answer: 32,
            count: 2,
        });
    }
    from_thirtythree(s, l, q, c, b, list, ev)
}

// The rules 28 to 33. The table t has section 3.
fn from_twentyeight(
    s: &[u8],
    l: Layout,
    f: &[u64],
    q: &[u64],
    k: &[u64],
    c: Classes,
    t: &mut [u64],
    list: &[u16],
    ev: &mut [u16],
) -> Result<(), Refusal>
    requires { Gathered s.now l f.now q.now k.now c × Held (execution_of s.now) t.old × AllKept (structure_rules (execution_of s.now)) × (65 ≤ length ev.old) }
    ensures { Given (Judged (replay_rules (execution_of s.now) list.now)) ev.old ev.new (answer_of result) (count_of result) }
{
    let mut b = [0u8; 64];
    let mut u = [0u64; 64];
    sequence(s, l, k, c, list, &mut b, &mut u, ev)?;
    from_thirtytwo(s, l, f, q, c, t, &b, &u, list, ev)
}

// All rules of a record that has the form.
fn from_ten(s: &[u8], l: Layout, list: &[u16], ev: &mut [u16]) -> Result<(), Refusal>
    requires { Right s.now × Laid s.now l × (65 ≤ length ev.old) }
    ensures { Given (Judged (structure_rules (execution_of s.now) ++ replay_rules (execution_of s.now) list.now)) ev.old ev.new (answer_of result) (count_of result) }
{
    let mut f = [0u64; 8];
    let mut q = [0u64; 64];
    let mut k = [0u64; 17];
    let mut t = [0u64; 64];
    let c = gather(s, l, &mut f, &mut q, &mut k);
    structure(s, l, &q, &k, c, &mut t, ev)?;
    from_twentyeight(s, l, &f, &q, &k, c, &mut t, list, ev)
}

// The answer and its evidence at the front of the lent buffer; 1 where that has fewer than 65 entries.
pub fn replay(s: &[u8], list: &[u16], ev: &mut [u16]) -> Verdict
    ensures { Replayed s.now list.now ev.old ev.new result.answer result.count }
{
    if ev.len() < 65 {
        return Verdict {
            answer: 1,
            count: 0,
        };
    }
    match whole(s) {
        Err(f) => {
            ev[0] = f.section;
            Verdict {
                answer: f.answer,
                count: 1,
            }
        }
        Ok(_) => from_ten(s, layout(s), list, ev).into(),
    }
}
