// Rule 12: two events of one instruction at one register, one or both writing, that section 3 leaves unordered.
ghost use Rattle.std.specs.Prelude.{◌<◌};
ghost use Rattle.order.specs.Least.{Found};
ghost use Rattle.order.specs.Rule.{Any};
ghost use Rattle.rows.specs.Members.{Is};
ghost use Rattle.form.specs.Right.{Right};
ghost use Rattle.record.specs.Says.{execution_of};
ghost use Rattle.structure.specs.Held.{Held};
ghost use Rattle.facts.specs.Facts.{Placed};
ghost use Rattle.record.specs.Words.{Register};
ghost use Rattle.structure.specs.Structure.{Unordered};

use record::events::event_of;
use rows::Set;

// The least register event that is unordered with one above it, if there is one. The table t has section 3, q the events at one place.
pub fn unordered(s: &[u8], t: &[u64], q: &[u64], registers: Set) -> Option<usize>
    requires right { Right s.now × Held (execution_of s.now) t.now × Placed (execution_of s.now) q.now }
    requires is { Is registers (λ e. (e < (execution_of s.now).events.size) × Register ((execution_of s.now).events.item e)) }
    ensures { Found 64 (λ a. Any 1 (Unordered (execution_of s.now) a)) result }
{
    for a in registers {
        if unordered_with(s, t, q, a).is_some() {
            return Some(a);
        }
    }
    None
}

// The least event above a register event a that is unordered with it, if there is one.
pub fn unordered_with(s: &[u8], t: &[u64], q: &[u64], a: usize) -> Option<usize>
    requires right { Right s.now × Held (execution_of s.now) t.now × Placed (execution_of s.now) q.now }
    requires a_bound { (a < (execution_of s.now).events.size) × Register ((execution_of s.now).events.item a) }
    ensures { Found 64 (Unordered (execution_of s.now) a) result }
{
    let x = event_of(s, a);
    let near = rows::row(q, a) - Set::full(a + 1) - rows::row(t, a);
    for b in near {
        let y = event_of(s, b);
        if x.index == y.index && (x.kind == 3 || y.kind == 3) && !rows::linked(t, b, a) {
            return Some(b);
        }
    }
    None
}
