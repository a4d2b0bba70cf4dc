// The sets of the tables, by name.
ghost use Rattle.rows.specs.Table.{HasRows};
ghost use Rattle.record.specs.Execution.{Execution};
ghost use Rattle.facts.specs.Facts.{Sorted, Entered, Classed};

use crate::Classes;

pub fn classify(f: &[u64], k: &[u64]) -> Classes
    requires { HasRows f.now 8 × HasRows k.now 17 }
    ensures { (x : Execution) → Sorted x f.now → Entered x k.now → Classed x result }
{
    Classes {
        loads: rows::row(f, 4),
        stores: rows::row(f, 5),
        gets: rows::row(f, 6),
        puts: rows::row(f, 7),
        locked: rows::row(k, 16),
    }
}
