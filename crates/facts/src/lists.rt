// Lists of one-byte numbers, read in place.
ghost use Rattle.std.specs.Prelude.{◌≡◌, ℕ, ◌<◌};
ghost use Rattle.facts.specs.Lists.{list_of, Listed};

use form::bytes::num1;
use record::Part;

// Number i of the list.
pub fn number(s: &[u8], list: Part, i: usize) -> usize
    requires { ((n : ℕ) × Listed s.now n list) × (i < list.count) }
    ensures { result ≡ (list_of s.now list).item i }
{
    num1(s, list.at + i)
}
