// Rules 13 and 14: the locked instructions of section 4.
ghost use Rattle.std.specs.Prelude.{◌≡◌, ◌<◌, IfSome};
ghost use Rattle.order.specs.Least.{None, Found};
ghost use Rattle.rows.specs.Table.{HasRows};
ghost use Rattle.record.specs.Execution.{Execution};
ghost use Rattle.facts.specs.Facts.{Entered};
ghost use Rattle.structure.specs.Structure.{Eventless, Repeated};

use rows::Set;

// 13: the first of the g entries that has no event, if one has none. Row i of k has the events of entry i.
pub fn eventless(k: &[u64], g: usize) -> Option<usize>
    requires { HasRows k.now g }
    ensures within { IfSome result (λ i. i < g) }
    ensures found { (x : Execution) → Entered x k.now → g ≡ x.locks.size → Found g (Eventless x) result }
{
    for i in 0..g {
        if !rows::row(k, i).any() {
            return Some(i);
        }
    }
    None
}

// 14: the first of the g entries that repeats an earlier one, if one does. Each entry has an event.
pub fn repeated(k: &[u64], g: usize) -> Option<usize>
    requires { HasRows k.now g }
    ensures within { IfSome result (λ i. i < g) }
    ensures found { (x : Execution) → Entered x k.now → g ≡ x.locks.size → None g (Eventless x) → Found g (Repeated x) result }
{
    let mut earlier = Set::none();
    for i in 0..g {
        let here = rows::row(k, i);
        if here.meets(earlier) {
            return Some(i);
        }
        earlier = earlier | here;
    }
    None
}
