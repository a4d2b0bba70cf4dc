// The order table.
// Promises: for every byte string and every lent table the answer, and every word of the table (`Tabled`).
//
// The tables: f the events by processor and kind, q by place, k by locked entry, t section 3 and then happens-before.
#![tactic(auto)]

ghost use Rattle.std.specs.Prelude.{◌≤◌, ◌++◌, length};
ghost use Rattle.form.specs.Right.{Right};
ghost use Rattle.record.specs.Refusals.{answer_of};
ghost use Rattle.record.specs.Says.{execution_of};
ghost use Rattle.record.specs.Laid.{Laid};
ghost use Rattle.facts.specs.Facts.{Gathered};
ghost use Rattle.structure.specs.Held.{Held};
ghost use Rattle.structure.specs.Structure.{structure_rules};
ghost use Rattle.model.specs.Rules.{witness_rules};
ghost use Rattle.table.specs.Tabled.{Judging, Tabled};

use facts::Classes;
use facts::gather::gather;
use form::whole::whole;
use orders::union::put_happens_before;
use record::refusal::Refusal;
use record::sections::layout;
use record::{Layout, Verdict};
use structure::rules::structure;

// The rules 20 to 23; where they are kept, happens-before goes into the lent table. The table t has section 3.
fn tabled(
    s: &[u8],
    l: Layout,
    f: &[u64],
    q: &[u64],
    k: &[u64],
    c: Classes,
    t: &mut [u64],
    ev: &mut [u16],
    out: &mut [u64],
) -> Result<(), Refusal>
    requires { Gathered s.now l f.now q.now k.now c × Held (execution_of s.now) t.old × (65 ≤ length ev.old) × ((execution_of s.now).events.size ≤ length out.old) }
    ensures { Judging (execution_of s.now) (witness_rules (execution_of s.now)) out.old out.new (answer_of result) }
{
    witness::witness(s, l, f, q, c, ev)?;
    put_happens_before(s, l, f, q, k, c, t);
    rows::copy(out, t, l.events);
    Ok(())
}

// The rules 10 to 23 of a record that has the form, in a table of at least as many words as there are events.
fn tabled_from_ten(s: &[u8], l: Layout, out: &mut [u64]) -> Result<(), Refusal>
    requires { Right s.now × Laid s.now l × ((execution_of s.now).events.size ≤ length out.old) }
    ensures { Judging (execution_of s.now) (structure_rules (execution_of s.now) ++ witness_rules (execution_of s.now)) out.old out.new (answer_of result) }
{
    let mut f = [0u64; 8];
    let mut q = [0u64; 64];
    let mut k = [0u64; 17];
    let mut t = [0u64; 64];
    let mut ev = [0u16; 65];
    let c = gather(s, l, &mut f, &mut q, &mut k);
    structure(s, l, &q, &k, c, &mut t, &mut ev)?;
    tabled(s, l, &f, &q, &k, c, &mut t, &mut ev, out)
}

// The answer, a number as the exported function hands it out; on 0 word e has bit k set exactly if event e happens directly before event k.
pub fn order_table(s: &[u8], out: &mut [u64]) -> u16
    ensures { Tabled s.now out.old out.new result }
{
    match whole(s) {
        Err(f) => f.answer,
        Ok(_) => {
            let l = layout(s);
            if out.len() < l.events {
                return 1;
            }
            Verdict::from(tabled_from_ten(s, l, out)).answer
        }
    }
}
