// Rules 27 and 31: an event stands between two of a locked instruction that it is not of.
ghost use Rattle.std.specs.Prelude.{ℕ};
ghost use Rattle.order.specs.Decides.{Decides};
ghost use Rattle.order.specs.Least.{Some, Found};
ghost use Rattle.order.specs.Rule.{Any};
ghost use Rattle.rows.specs.Members.{In, Is};
ghost use Rattle.rows.specs.Table.{HasRow, HasRows};
ghost use Rattle.record.specs.Execution.{Items, Execution};
ghost use Rattle.facts.specs.Facts.{Mated};
ghost use Rattle.record.specs.Words.{SameInstruction, OfLock};
ghost use Rattle.model.specs.Model.{Locked, Before};
ghost use Rattle.model.specs.Rules.{BreaksUp};
ghost use Rattle.axioms.specs.Scene.{Lined};

use rows::Set;

// Whether the locked instruction of a is broken up behind a.
fn torn_at(t: &[u64], m: &[u64], all: Set, a: usize) -> bool
    requires { HasRows t.now 64 × HasRow t.now a × HasRow m.now a }
    ensures { (z : Execution) (l : Items ℕ) → Lined z l t.now all → Mated z m.now → Locked z a → In all a → Decides result (Any 2 (BreaksUp z l a)) }
{
    let mates = rows::row(m, a);
    let after = rows::row(t, a) & all;
    let others = after - mates;
    for b in after & mates {
        if (others - rows::row(t, b)).any() {
            return true;
        }
    }
    false
}

// The least event whose locked instruction is broken up behind it.
pub fn torn(t: &[u64], m: &[u64], locked: Set, all: Set) -> Option<usize>
    requires { HasRows t.now 64 × HasRows m.now 64 }
    ensures { (z : Execution) (l : Items ℕ) → Lined z l t.now all → Mated z m.now → Is locked (λ e. Some z.locks.size (λ i. OfLock z i e)) → Found 64 (λ a. Any 2 (BreaksUp z l a)) result }
{
    for a in locked & all {
        if torn_at(t, m, all, a) {
            return Some(a);
        }
    }
    None
}

// The events of a's instruction that stand after x.
pub fn torn_from(t: &[u64], m: &[u64], all: Set, a: usize, x: usize) -> Set
    requires { HasRow t.now x × HasRow m.now a }
    ensures { (z : Execution) (l : Items ℕ) → Lined z l t.now all → Mated z m.now → Locked z a → In all a → In all x → Is result (λ b. In all b × (SameInstruction (z.events.item a) (z.events.item b) × Before l x b)) }
{
    rows::row(t, x) & all & rows::row(m, a)
}

// The least event that stands in the locked instruction of a.
pub fn tearing(t: &[u64], m: &[u64], all: Set, a: usize) -> Option<usize>
    requires { HasRows t.now 64 × HasRow t.now a × HasRow m.now a }
    ensures { (z : Execution) (l : Items ℕ) → Lined z l t.now all → Mated z m.now → Locked z a → In all a → Found 64 (λ x. Any 1 (BreaksUp z l a x)) result }
{
    let after = rows::row(t, a) & all;
    for x in after - rows::row(m, a) {
        if torn_from(t, m, all, a, x).any() {
            return Some(x);
        }
    }
    None
}
