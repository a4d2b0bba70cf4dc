// A whole record.
ghost use Rattle.std.specs.Prelude.{◌≡◌};
ghost use Rattle.form.specs.Whole.{head, tail, body, whole};

use crate::bytes::{num1, num2};
use crate::chain::{sections, views};
use crate::entry::{due, require};
use crate::place::counts;
use crate::{Counts, Fault};

// Sections 0 and 1.
#[tactic(auto, unfolding(crate::specs::Whole::head, crate::specs::Form::due))]
pub fn head(s: &[u8]) -> Result<usize, Fault>
    ensures { result ≡ head s.now }
{
    due(s, 0, 1, 0)?;
    require(num1(s, 0) == 1, 4, 0, 0)?;
    let a = due(s, 1, 1, 1)?;
    require(num1(s, 1) <= 4, 3, 1, 1)?;
    Ok(a)
}

// Section 9 at `at`, and the end.
#[tactic(auto, unfolding(crate::specs::Whole::tail, crate::specs::Form::due))]
pub fn tail(c: Counts, s: &[u8], at: usize) -> Result<usize, Fault>
    ensures { result ≡ tail c s.now at }
{
    let a = due(s, 9, 2, at)?;
    require(num2(s, at) == c.processors, 4, 9, at)?;
    let end = views(c, s, c.processors, a)?;
    require(s.len() <= end, 5, 10, end)?;
    Ok(end)
}

// Sections 2 to 9, and the end.
#[tactic(auto, unfolding(crate::specs::Whole::body))]
pub fn body(c: Counts, s: &[u8], at: usize) -> Result<usize, Fault>
    ensures { result ≡ body c s.now at }
{
    let nine = sections(c, s, at)?;
    tail(c, s, nine)
}

// Whether the record has the form: its length, or the first fault.
#[tactic(auto, unfolding(crate::specs::Whole::whole))]
pub fn whole(s: &[u8]) -> Result<usize, Fault>
    ensures { result ≡ whole s.now }
{
    // No `?`: it takes room on the stack before the first byte is read, a fifth of what a record costs that is refused there.
    match head(s) {
        Ok(a) => body(counts(s), s, a),
        Err(fault) => Err(fault),
    }
}
