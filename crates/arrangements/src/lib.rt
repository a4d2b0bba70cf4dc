// Arrangements of a list's numbers, one after the other in dictionary order.
// Promises: `next` goes from each arrangement to the next, and from the last to the first; so who starts with the first and goes on
// until `next` finds none has met every arrangement once.
#![tactic(auto)]

ghost use Rattle.std.specs.Prelude.{◌<◌, length, MatchOption};
ghost use Rattle.order.specs.Least.{None, Least};
ghost use Rattle.arrangements.specs.Arrangement.{Next};
ghost use Rattle.arrangements.specs.Steps.{Above, Raised};

// The next arrangement of the numbers, or, where there is none, the first; whether there was one.
pub fn next(l: &mut [u8]) -> bool
    ensures { Next l.old l.new result }
{
    for k in (0..l.len()).rev() {
        if raise(&mut l[k..]) {
            return true;
        }
    }
    false
}

// The first place of a number above the one at 0, if there is one.
fn above(l: &[u8]) -> Option<usize>
    ensures { MatchOption result (None (length l.now) (Above l.now)) (λ i. (i < length l.now) × Least (Above l.now) i) }
{
    let first = *l.first()?;
    l.iter().position(|x| first < *x)
}

// The numbers behind the first stand at their first arrangement, where they came from their last. Goes on to the next arrangement of
// all: the first number changes places with the least of the others that is above it, or goes behind them where none is.
fn raise(l: &mut [u8]) -> bool
    requires { 0 < length l.old }
    ensures { Raised l.old l.new result }
{
    match above(l) {
        Some(i) => {
            l.swap(0, i);
            true
        }
        None => {
            l.rotate_left(1);
            false
        }
    }
}
