// Rules 20 to 23: the lists of the witness.
ghost use Rattle.std.specs.Prelude.{◌<◌};
ghost use Rattle.order.specs.Decides.{Decides};
ghost use Rattle.order.specs.Least.{Found};
ghost use Rattle.rows.specs.Members.{In};
ghost use Rattle.form.specs.Right.{Right};
ghost use Rattle.record.specs.Says.{execution_of};
ghost use Rattle.record.specs.Laid.{Stands};
ghost use Rattle.facts.specs.Lists.{list_of, Listed};
ghost use Rattle.facts.specs.Facts.{Placed, Classed};
ghost use Rattle.model.specs.Rules.{Misplaced, WriteAndRead, WrongSource};

use facts::Classes;
use facts::lists::number;
use record::Part;
use record::events::event_of;
use record::lists::{reader_of, source_of};
use rows::Set;

// The least number that the list has a wrong number of times: a member of `due` is due once, any other number never.
pub fn misplaced(s: &[u8], list: Part, due: Set) -> Option<usize>
    requires { Listed s.now 64 list }
    ensures { Found 64 (λ e. Misplaced (In due e) (list_of s.now list) e) result }
{
    let mut once = Set::none();
    let mut twice = Set::none();
    for i in 0..list.count {
        let here = Set::one(number(s, list, i));
        twice = twice | (once & here);
        once = once | here;
    }
    let differing = (once - due) | (due - once);
    (twice | differing).first()
}

// Whether w and r are a write and a read of one place and value.
fn paired(s: &[u8], q: &[u64], c: Classes, w: usize, r: usize) -> bool
    requires facts { Right s.now × Placed (execution_of s.now) q.now × Classed (execution_of s.now) c }
    requires events { (w < (execution_of s.now).events.size) × (r < (execution_of s.now).events.size) }
    ensures { Decides result (WriteAndRead ((execution_of s.now).events.item w) ((execution_of s.now).events.item r)) }
{
    let writes = c.stores | c.puts;
    let reads = c.loads | c.gets;
    writes.has(w)
        && reads.has(r)
        && rows::linked(q, w, r)
        && event_of(s, w).value == event_of(s, r).value
}

// 23: the first pair that is not a write and a read of one place and value.
pub fn mismatched(s: &[u8], sources: Part, q: &[u64], c: Classes) -> Option<usize>
    requires { Right s.now × Stands s.now 8 sources × Placed (execution_of s.now) q.now × Classed (execution_of s.now) c }
    ensures { Found sources.count (WrongSource (execution_of s.now)) result }
{
    for i in 0..sources.count {
        let w = source_of(s, sources, i);
        let r = reader_of(s, sources, i);
        if !paired(s, q, c, w, r) {
            return Some(i);
        }
    }
    None
}
