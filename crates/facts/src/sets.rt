// The members of a set that pass a test.
ghost use Rattle.std.specs.Prelude.{ℕ};
ghost use Rattle.rows.specs.Members.{In};
ghost use Rattle.facts.specs.Sets.{Kept};

use rows::Set;

// The members of the set at which the test says true.
pub fn keep<F: Fn(usize) -> bool>(all: Set, test: F) -> Set
    requires { (e : ℕ) → In all e → F.pre test e }
    ensures { Kept (F.post test) all result }
{
    let mut kept = Set::none();
    for e in all {
        if test(e) {
            kept = kept | Set::one(e);
        }
    }
    kept
}
