// A processor's view order and happens-before together.
ghost use Rattle.std.specs.Prelude.{◌≤◌, ◌<◌, ◌⊎◌};
ghost use Rattle.rows.specs.Table.{HasRows, rel, Adds};
ghost use Rattle.facts.specs.Lists.{list_of, Listed};
ghost use Rattle.model.specs.Model.{Before};

use orders::lists::put_order;
use record::Part;

// Adds the steps of the first n rows of h and the order of the view.
pub fn arrange(s: &[u8], n: usize, view: Part, h: &[u64], t: &mut [u64])
    requires { Listed s.now 64 view × (n ≤ 64) × HasRows h.now n × HasRows t.old 64 }
    ensures { Adds t.old t.new (λ a b. ((a < n) × rel h.now a b) ⊎ Before (list_of s.now view) a b) }
{
    rows::join(t, h, n);
    put_order(s, view, t);
}
