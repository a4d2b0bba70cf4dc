// The check.
ghost use Rattle.std.specs.Prelude.{◌≤◌, length, ◌++◌};
ghost use Rattle.order.specs.Rule.{Judged, AllKept};
ghost use Rattle.order.specs.Evidence.{Given};
ghost use Rattle.form.specs.Right.{Right};
ghost use Rattle.record.specs.Refusals.{answer_of, count_of};
ghost use Rattle.record.specs.Says.{execution_of};
ghost use Rattle.record.specs.Laid.{Laid};
ghost use Rattle.facts.specs.Facts.{Gathered};
ghost use Rattle.structure.specs.Held.{Held};
ghost use Rattle.structure.specs.Structure.{structure_rules};
ghost use Rattle.model.specs.Rules.{witness_rules, order_rules, check_rules};
ghost use Rattle.judge.specs.Checked.{Checked};

use crate::Known;
use crate::views::from_twentyfour;
use facts::Classes;
use facts::gather::gather;
use facts::locks::mate;
use form::whole::whole;
use orders::lists::{put_sources, sourced};
use orders::union::put_happens_before;
use record::refusal::Refusal;
use record::sections::layout;
use record::{Layout, Verdict};
use structure::rules::structure;

// The rules about the orders. The table t has section 3.
fn ordered(
    s: &[u8],
    l: Layout,
    f: &[u64],
    q: &[u64],
    k: &[u64],
    c: Classes,
    t: &mut [u64],
    ev: &mut [u16],
) -> Result<(), Refusal>
    requires { Gathered s.now l f.now q.now k.now c × Held (execution_of s.now) t.old × AllKept (witness_rules (execution_of s.now)) × (65 ≤ length ev.old) }
    ensures { Given (Judged (order_rules (execution_of s.now))) ev.old ev.new (answer_of result) (count_of result) }
{
    let locks = l.locks;
    let sources = l.sources;
    put_happens_before(s, l, f, q, k, c, t);
    let mut m = [0u64; 64];
    mate(s, locks, k, &mut m);
    let mut u = [0u64; 64];
    put_sources(s, sources, &mut u);
    let g = Known {
        layout: l,
        classes: c,
        sourced: sourced(s, sources),
    };
    from_twentyfour(s, f, q, &m, &u, t, g, ev)
}

// The rules 20 to 27. The table t has section 3.
fn from_twenty(
    s: &[u8],
    l: Layout,
    f: &[u64],
    q: &[u64],
    k: &[u64],
    c: Classes,
    t: &mut [u64],
    ev: &mut [u16],
) -> Result<(), Refusal>
    requires { Gathered s.now l f.now q.now k.now c × Held (execution_of s.now) t.old × (65 ≤ length ev.old) }
    ensures { Given (Judged (check_rules (execution_of s.now))) ev.old ev.new (answer_of result) (count_of result) }
{
    witness::witness(s, l, f, q, c, ev)?;
    ordered(s, l, f, q, k, c, t, ev)
}

// All rules of a record that has the form.
fn from_ten(s: &[u8], l: Layout, ev: &mut [u16]) -> Result<(), Refusal>
    requires { Right s.now × Laid s.now l × (65 ≤ length ev.old) }
    ensures { Given (Judged (structure_rules (execution_of s.now) ++ check_rules (execution_of s.now))) ev.old ev.new (answer_of result) (count_of result) }
{
    let mut f = [0u64; 8];
    let mut q = [0u64; 64];
    let mut k = [0u64; 17];
    let mut t = [0u64; 64];
    let c = gather(s, l, &mut f, &mut q, &mut k);
    structure(s, l, &q, &k, c, &mut t, ev)?;
    from_twenty(s, l, &f, &q, &k, c, &mut t, ev)
}

// The answer and its evidence at the front of the lent buffer; 1 where that has fewer than 65 entries.
pub fn check(s: &[u8], ev: &mut [u16]) -> Verdict
    ensures { Checked s.now ev.old ev.new result.answer result.count }
{
    if ev.len() < 65 {
        return Verdict {
            answer: 1,
            count: 0,
        };
    }
    match whole(s) {
        Err(f) => {
            ev[0] = f.section;
            Verdict {
                answer: f.answer,
                count: 1,
            }
        }
        Ok(_) => from_ten(s, layout(s), ev).into(),
    }
}
