// Happens-before: the union of its orders, without chaining.
ghost use Rattle.record.specs.Says.{execution_of};
ghost use Rattle.facts.specs.Facts.{Gathered};
ghost use Rattle.structure.specs.Held.{Held};
ghost use Rattle.orders.specs.Groups.{Happens};

use crate::lists::{put_order_of_groups, put_part_of_order, put_sources};
use crate::preserved::put_preserved;
use facts::Classes;
use record::Layout;

// Adds the other orders to a table that has section 3.
pub fn put_happens_before(
    s: &[u8],
    l: Layout,
    f: &[u64],
    q: &[u64],
    k: &[u64],
    c: Classes,
    t: &mut [u64],
)
    requires { Gathered s.now l f.now q.now k.now c × Held (execution_of s.now) t.old }
    ensures { Happens (execution_of s.now) t.new }
{
    put_preserved(s, f, q, c, t);
    put_part_of_order(s, l.stores, q, c.loads | c.stores, t);
    put_order_of_groups(s, l.lockorder, k, t);
    put_sources(s, l.sources, t);
}
