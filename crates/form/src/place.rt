// Where the sections stand, and the counts that the field tests need. Nothing here asks that the record is right.
ghost use Rattle.std.specs.Prelude.{◌≡◌, ◌+◌, ◌*◌, ◌≤◌};
ghost use Rattle.form.specs.Place.{start, counts};

use crate::Counts;
use crate::bytes::{byte, count_at};
use crate::entry::width;

// Where section `k` starts, its count included.
#[tactic(auto, unfolding(crate::specs::Place::start), using(crate::proofs::Starts::start_more, crate::proofs::Branches::small_product, crate::proofs::Branches::width_le))]
pub fn start(s: &[u8], k: u16) -> usize
    requires { (2 ≤ k) × (k ≤ 9) }
    ensures value { result ≡ start s.now k }
    ensures small { result ≤ k * 786422 }
{
    let mut a = 2;
    for j in 2..k {
        a = a + 2 + count_at(s, a) * width(j);
    }
    a
}

// The counts of a record.
#[tactic(auto, unfolding(crate::specs::Place::counts))]
pub fn counts(s: &[u8]) -> Counts
    ensures { result ≡ counts s.now }
{
    Counts {
        processors: byte(s, 1),
        events: count_at(s, start(s, 2)),
        locks: count_at(s, start(s, 4)),
    }
}
