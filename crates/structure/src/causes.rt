// Section 3: rule 10, and the pairs as steps of a table.
ghost use Rattle.std.specs.Prelude.{◌≡◌, ◌<◌};
ghost use Rattle.order.specs.Least.{Found};
ghost use Rattle.rows.specs.Table.{HasRows, Adds};
ghost use Rattle.form.specs.Right.{Right};
ghost use Rattle.record.specs.Says.{execution_of};
ghost use Rattle.record.specs.Laid.{Stands};
ghost use Rattle.record.specs.Words.{Causes};
ghost use Rattle.structure.specs.Structure.{Joining};

use form::bytes::num1;
use record::Part;
use record::events::{event_of, same_instruction};

// The events of pair i.
pub fn pair(s: &[u8], causes: Part, i: usize) -> (usize, usize)
    requires { Right s.now × Stands s.now 3 causes × (i < causes.count) }
    ensures from { result.0 ≡ ((execution_of s.now).causes.item i).from }
    ensures to { result.1 ≡ ((execution_of s.now).causes.item i).to }
    ensures low { (result.0 < (execution_of s.now).events.size) × (result.1 < (execution_of s.now).events.size) }
{
    let at = causes.at + 2 * i;
    (num1(s, at), num1(s, at + 1))
}

// 10: the first pair that joins two instructions, if one does.
pub fn joining(s: &[u8], causes: Part) -> Option<usize>
    requires { Right s.now × Stands s.now 3 causes }
    ensures { Found causes.count (Joining (execution_of s.now)) result }
{
    for i in 0..causes.count {
        let (from, to) = pair(s, causes, i);
        if !same_instruction(event_of(s, from), event_of(s, to)) {
            return Some(i);
        }
    }
    None
}

// Adds a step for each pair.
pub fn put_causes(s: &[u8], causes: Part, t: &mut [u64])
    requires { Right s.now × Stands s.now 3 causes × HasRows t.old 64 }
    ensures { Adds t.old t.new (Causes (execution_of s.now)) }
{
    for i in 0..causes.count {
        let (from, to) = pair(s, causes, i);
        rows::link(t, from, to);
    }
}
