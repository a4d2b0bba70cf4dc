// All the facts of a record that the rules above ask for.
ghost use Rattle.rows.specs.Table.{HasRows};
ghost use Rattle.form.specs.Right.{Right};
ghost use Rattle.record.specs.Laid.{Laid};
ghost use Rattle.facts.specs.Facts.{Blank, Gathered};

use crate::Classes;
use crate::kinds::classify;
use crate::locks::enter;
use crate::places::place;
use crate::sorts::sort;
use record::Layout;

// The events by processor and kind in f, by place in q, by locked entry in k, and the sets of these by name.
pub fn gather(s: &[u8], l: Layout, f: &mut [u64], q: &mut [u64], k: &mut [u64]) -> Classes
    requires right { Right s.now × Laid s.now l }
    requires has_rows { (HasRows f.old 8 × Blank f.old) × ((HasRows q.old 64 × Blank q.old) × (HasRows k.old 17 × Blank k.old)) }
    ensures { Gathered s.now l f.new q.new k.new result }
{
    sort(s, l.events, f);
    place(s, l.events, f, q);
    enter(s, l.locks, f, k);
    classify(f, k)
}
