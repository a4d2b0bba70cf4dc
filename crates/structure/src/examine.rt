// The judgement by the form rules and the structure rules alone.
ghost use Rattle.std.specs.Prelude.{◌≤◌, [], length};
ghost use Rattle.order.specs.Rule.{Judged};
ghost use Rattle.order.specs.Evidence.{Given};
ghost use Rattle.form.specs.Right.{Right};
ghost use Rattle.record.specs.Refusals.{answer_of, count_of};
ghost use Rattle.record.specs.Says.{execution_of};
ghost use Rattle.record.specs.Laid.{Laid};
ghost use Rattle.structure.specs.Examined.{examination};
ghost use Rattle.structure.specs.Structure.{structure_rules};

use crate::rules::structure;
use facts::gather::gather;
use form::whole::whole;
use record::refusal::Refusal;
use record::sections::layout;
use record::{Layout, Verdict};

// The structure rules of a record that has the form.
fn examine_form(s: &[u8], l: Layout, ev: &mut [u16]) -> Result<(), Refusal>
    requires { Right s.now × Laid s.now l × (65 ≤ length ev.old) }
    ensures { Given (Judged (structure_rules (execution_of s.now))) ev.old ev.new (answer_of result) (count_of result) }
{
    let mut f = [0u64; 8];
    let mut q = [0u64; 64];
    let mut k = [0u64; 17];
    let mut t = [0u64; 64];
    let c = gather(s, l, &mut f, &mut q, &mut k);
    structure(s, l, &q, &k, c, &mut t, ev)
}

// The answer, 0, 2 to 5 or 10 to 14, and its evidence at the front of the lent buffer.
pub fn examine(s: &[u8], ev: &mut [u16]) -> Verdict
    requires { 65 ≤ length ev.old }
    ensures { Given (examination s.now []) ev.old ev.new result.answer result.count }
{
    match whole(s) {
        Err(f) => {
            ev[0] = f.section;
            Verdict {
                answer: f.answer,
                count: 1,
            }
        }
        Ok(_) => examine_form(s, layout(s), ev).into(),
    }
}
