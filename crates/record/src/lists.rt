// The items of sections 5 and 8, and where a view stands, read in place.
ghost use Rattle.std.specs.Prelude.{◌≡◌, ◌<◌};
ghost use Rattle.order.specs.Decides.{Decides};
ghost use Rattle.order.specs.Least.{Found};
ghost use Rattle.form.specs.Place.{view_start};
ghost use Rattle.form.specs.Right.{Right};
ghost use Rattle.record.specs.Says.{execution_of};
ghost use Rattle.record.specs.Laid.{Stands, Views};
ghost use Rattle.record.specs.Words.{InitialFor};

use crate::{Event, Part};
use form::bytes::{num1, num2, num4};

// The writing event of reads-from pair i.
pub fn source_of(s: &[u8], sources: Part, i: usize) -> usize
    requires { Right s.now × Stands s.now 8 sources × (i < sources.count) }
    ensures { result ≡ ((execution_of s.now).sources.item i).from }
{
    let from = sources.at;
    num1(s, from + 2 * i)
}

// The reading event of reads-from pair i.
pub fn reader_of(s: &[u8], sources: Part, i: usize) -> usize
    requires { Right s.now × Stands s.now 8 sources × (i < sources.count) }
    ensures { result ≡ ((execution_of s.now).sources.item i).to }
{
    let from = sources.at;
    num1(s, from + 2 * i + 1)
}

// Whether entry i of section 5 is for the event's place.
fn is_for(s: &[u8], initials: Part, i: usize, x: Event) -> bool
    requires { Right s.now × Stands s.now 5 initials × (i < initials.count) }
    ensures { Decides result (InitialFor x ((execution_of s.now).initials.item i)) }
{
    let at = initials.at + 12 * i;
    if num4(s, at + 4) != x.place {
        return false;
    }
    let class = num1(s, at + 1);
    if x.kind < 2 {
        class == 0
    } else {
        class == 1 && num1(s, at) == x.processor
    }
}

// The first entry of section 5 for the event's place.
pub fn initial_for(s: &[u8], initials: Part, x: Event) -> Option<usize>
    requires { Right s.now × Stands s.now 5 initials }
    ensures { Found initials.count (λ i. InitialFor x ((execution_of s.now).initials.item i)) result }
{
    for i in 0..initials.count {
        if is_for(s, initials, i, x) {
            return Some(i);
        }
    }
    None
}

// The value of entry i of section 5.
pub fn value_of(s: &[u8], initials: Part, i: usize) -> usize
    requires { Right s.now × Stands s.now 5 initials × (i < initials.count) }
    ensures { result ≡ ((execution_of s.now).initials.item i).value }
{
    let from = initials.at;
    num4(s, from + 12 * i + 8)
}

// The events of processor p's view, whose count stands at `at`.
pub fn view_of(s: &[u8], p: usize, at: usize) -> Part
    requires { Right s.now × (p < (execution_of s.now).processors) × (at ≡ view_start s.now p) }
    ensures { Views s.now p result }
{
    Part {
        at: at + 2,
        count: num2(s, at),
    }
}
