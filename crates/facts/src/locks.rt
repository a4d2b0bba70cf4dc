// The events of locked instructions.
ghost use Rattle.std.specs.Prelude.{◌≡◌, ℕ, ◌<◌};
ghost use Rattle.rows.specs.Members.{In, Is};
ghost use Rattle.rows.specs.Table.{HasRows};
ghost use Rattle.form.specs.Right.{Right};
ghost use Rattle.record.specs.Says.{execution_of};
ghost use Rattle.record.specs.Laid.{Stands};
ghost use Rattle.facts.specs.Facts.{Blank, Sorted, Entered, Mated};

use crate::sets::keep;
use form::bytes::{num1, num2};
use record::Part;
use rows::Set;

// The events of the set that have the instruction index.
fn indexed(s: &[u8], own: Set, index: usize) -> Set
    requires { Right s.now × ((e : ℕ) → In own e → e < (execution_of s.now).events.size) }
    ensures { Is result (λ e. In own e × (((execution_of s.now).events.item e).index ≡ index)) }
{
    keep(own, |e| num2(s, 6 + 12 * e) == index)
}

// Row i gets the events of entry i, row 16 those of all entries.
pub fn enter(s: &[u8], locks: Part, f: &[u64], k: &mut [u64])
    requires { Right s.now × Stands s.now 4 locks × Sorted (execution_of s.now) f.now × HasRows k.old 17 × Blank k.old }
    ensures { Entered (execution_of s.now) k.new }
{
    for i in 0..locks.count {
        let at = locks.at + 4 * i;
        let here = indexed(s, rows::row(f, num1(s, at)), num2(s, at + 2));
        rows::add(k, i, here);
        rows::add(k, 16, here);
    }
}

// Row a gets the events of the locked instruction of a.
pub fn mate(s: &[u8], locks: Part, k: &[u64], m: &mut [u64])
    requires { Right s.now × Stands s.now 4 locks × Entered (execution_of s.now) k.now × HasRows m.old 64 × Blank m.old }
    ensures { Mated (execution_of s.now) m.new }
{
    for i in 0..locks.count {
        let here = rows::row(k, i);
        rows::spread(m, here, here);
    }
}
