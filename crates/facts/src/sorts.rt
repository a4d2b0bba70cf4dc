// The events by processor and by kind.
ghost use Rattle.std.specs.Prelude.{◌≡◌};
ghost use Rattle.rows.specs.Table.{HasRows};
ghost use Rattle.form.specs.Right.{Right};
ghost use Rattle.record.specs.Says.{execution_of};
ghost use Rattle.facts.specs.Facts.{Blank, Sorted};

use record::events::event_of;

// Row p gets the events of processor p, row 4 + k those of kind k.
pub fn sort(s: &[u8], n: usize, f: &mut [u64])
    requires { Right s.now × (n ≡ (execution_of s.now).events.size) × HasRows f.old 8 × Blank f.old }
    ensures { Sorted (execution_of s.now) f.new }
{
    for e in 0..n {
        let x = event_of(s, e);
        rows::link(f, x.processor, e);
        rows::link(f, 4 + x.kind, e);
    }
}
