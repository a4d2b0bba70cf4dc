// Rule 25: a write of the place stands between a read's source and the read.
ghost use Rattle.std.specs.Prelude.{ℕ};
ghost use Rattle.order.specs.Least.{Found};
ghost use Rattle.order.specs.Rule.{Any};
ghost use Rattle.rows.specs.Members.{In, Is};
ghost use Rattle.rows.specs.Table.{HasRow, HasRows};
ghost use Rattle.record.specs.Execution.{Execution};
ghost use Rattle.model.specs.Model.{Source};
ghost use Rattle.model.specs.Rules.{Overwritten};
ghost use Rattle.axioms.specs.Scene.{Sources, Scene};

use facts::Classes;
use rows::Set;

// The writes of r's place that stand after w and before r.
pub fn overwriting(t: &[u64], q: &[u64], c: Classes, seen: Set, w: usize, r: usize) -> Set
    requires { HasRow t.now w × HasRow t.now r × HasRow q.now r }
    ensures { (z : Execution) (p : ℕ) → Scene z p t.now q.now c seen → Source z w r → In seen w → In seen r → Is result (Overwritten z p w r) }
{
    let writes = (c.stores | c.puts) & rows::row(q, r);
    let later = rows::row(t, w) & seen;
    (writes & later) - rows::row(t, r)
}

// The least read from w that is overwritten.
pub fn overwritten_from(
    t: &[u64],
    q: &[u64],
    u: &[u64],
    c: Classes,
    seen: Set,
    w: usize,
) -> Option<usize>
    requires { HasRows t.now 64 × HasRows q.now 64 × HasRow t.now w × HasRow u.now w }
    ensures { (z : Execution) (p : ℕ) → Scene z p t.now q.now c seen → Sources z u.now → In seen w → Found 64 (λ e. Any 1 (Overwritten z p w e)) result }
{
    for r in rows::row(u, w) & seen {
        if overwriting(t, q, c, seen, w, r).any() {
            return Some(r);
        }
    }
    None
}

// The least source of a read that is overwritten.
pub fn overwritten(t: &[u64], q: &[u64], u: &[u64], c: Classes, seen: Set) -> Option<usize>
    requires { HasRows t.now 64 × HasRows q.now 64 × HasRows u.now 64 }
    ensures { (z : Execution) (p : ℕ) → Scene z p t.now q.now c seen → Sources z u.now → Found 64 (λ e. Any 2 (Overwritten z p e)) result }
{
    let writes = c.stores | c.puts;
    for w in writes & seen {
        if overwritten_from(t, q, u, c, seen, w).is_some() {
            return Some(w);
        }
    }
    None
}
