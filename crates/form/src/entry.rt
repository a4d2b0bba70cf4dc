// One entry of a section: whole before its fields, the fields in layout order.
ghost use Rattle.std.specs.Prelude.{◌≡◌, ◌+◌, ◌≤◌, length, true, false, Err, MatchResult};
ghost use Rattle.form.specs.Steps.{stop};
ghost use Rattle.form.specs.Form.{due, width, limit, fields_from, fields, event_fields, pair_fields, lock_fields, initial_fields, one_field, place_right, owner_right, entry, Section};

use crate::bytes::{num1, num2, num4};
use crate::{Counts, Fault};

// Nothing where `right` holds; else the fault: its answer, its section and the place of its first byte.
pub(crate) fn require(right: bool, answer: u16, section: u16, at: usize) -> Result<(), Fault>
    ensures { MatchResult result (λ _. right ≡ true) (λ f. (right ≡ false) × (Err f ≡ stop answer section at)) }
{
    if right {
        Ok(())
    } else {
        Err(Fault {
            answer,
            section,
            at,
        })
    }
}

// The place past `w` bytes of section `k` that are due at `at`, or the fault that the record ends too early.
#[tactic(auto, unfolding(crate::specs::Form::due))]
pub fn due(s: &[u8], k: u16, w: usize, at: usize) -> Result<usize, Fault>
    ensures { result ≡ due s.now k w at }
{
    require(at <= s.len(), 2, k, at)?;
    require(w <= s.len() - at, 2, k, at)?;
    Ok(at + w)
}

// The bytes of an entry of section `k`. A byte string is read where it stands; an array would be built anew at each call.
#[tactic(auto, unfolding(crate::specs::Form::width))]
pub fn width(k: u16) -> usize
    requires { k ≤ 9 }
    ensures { result ≡ width k }
{
    let widths = b"\x01\x01\x0c\x02\x04\x0c\x01\x01\x02\x01";
    widths[k as usize] as usize
}

// The most entries of section `k`.
#[tactic(auto, unfolding(crate::specs::Form::limit))]
pub fn limit(k: u16) -> usize
    requires { k ≤ 9 }
    ensures { result ≡ limit k }
{
    let limits = b"\x00\x04\x40\x80\x10\x40\x40\x10\x40\x40";
    limits[k as usize] as usize
}

// Whether a place is one: an address divisible by 4, or a register 0 to 14.
#[tactic(auto, unfolding(crate::specs::Form::place_right))]
pub fn place_right(register: bool, place: usize) -> bool
    ensures { result ≡ place_right register place }
{
    if register {
        place <= 14
    } else {
        place % 4 == 0
    }
}

// The fields of an event.
#[tactic(auto, unfolding(crate::specs::Form::event_fields))]
pub fn event(c: Counts, s: &[u8], at: usize) -> Result<usize, Fault>
    requires { at + 12 ≤ length s.now }
    ensures { result ≡ fields_from 2 (event_fields c s.now at) at }
{
    require(num1(s, at) < c.processors, 4, 2, at)?;
    let kind = num1(s, at + 1);
    require(kind <= 3, 4, 2, at + 1)?;
    require(place_right(2 <= kind, num4(s, at + 4)), 4, 2, at + 4)?;
    Ok(at + 12)
}

// The fields of a pair of events, of section `k`.
#[tactic(auto, unfolding(crate::specs::Form::pair_fields))]
pub fn pair(c: Counts, s: &[u8], k: u16, at: usize) -> Result<usize, Fault>
    requires { at + 2 ≤ length s.now }
    ensures { result ≡ fields_from k (pair_fields c s.now at) at }
{
    require(num1(s, at) < c.events, 4, k, at)?;
    require(num1(s, at + 1) < c.events, 4, k, at + 1)?;
    Ok(at + 2)
}

// The fields of a locked instruction.
#[tactic(auto, unfolding(crate::specs::Form::lock_fields))]
pub fn lock(c: Counts, s: &[u8], at: usize) -> Result<usize, Fault>
    requires { at + 4 ≤ length s.now }
    ensures { result ≡ fields_from 4 (lock_fields c s.now at) at }
{
    require(num1(s, at) < c.processors, 4, 4, at)?;
    require(num1(s, at + 1) == 0, 4, 4, at + 1)?;
    Ok(at + 4)
}

// Whether a processor fits an initial value: 0 for memory, else one of the record's.
#[tactic(auto, unfolding(crate::specs::Form::owner_right))]
pub fn owner_right(class: usize, proc: usize, processors: usize) -> bool
    ensures { result ≡ owner_right class proc processors }
{
    if class == 0 {
        proc == 0
    } else {
        proc < processors
    }
}

// The fields of an initial value.
#[tactic(auto, unfolding(crate::specs::Form::initial_fields))]
pub fn initial(c: Counts, s: &[u8], at: usize) -> Result<usize, Fault>
    requires { at + 12 ≤ length s.now }
    ensures { result ≡ fields_from 5 (initial_fields c s.now at) at }
{
    let class = num1(s, at + 1);
    require(owner_right(class, num1(s, at), c.processors), 4, 5, at)?;
    require(class <= 1, 4, 5, at + 1)?;
    require(num2(s, at + 2) == 0, 4, 5, at + 2)?;
    require(place_right(class == 1, num4(s, at + 4)), 4, 5, at + 4)?;
    Ok(at + 12)
}

// The one field of an entry that is a number below `n`.
#[tactic(auto, unfolding(crate::specs::Form::one_field))]
pub fn one(n: usize, s: &[u8], k: u16, at: usize) -> Result<usize, Fault>
    requires { at + 1 ≤ length s.now }
    ensures { result ≡ fields_from k (one_field n s.now at) at }
{
    require(num1(s, at) < n, 4, k, at)?;
    Ok(at + 1)
}

// The fields of an entry of section `k` that is there whole.
#[tactic(auto, unfolding(crate::specs::Form::fields, crate::specs::Form::width))]
pub fn fields(c: Counts, s: &[u8], k: u16, at: usize) -> Result<usize, Fault>
    requires section { Section k }
    requires k_in_bounds { at + width k ≤ length s.now }
    ensures { result ≡ fields_from k (fields c s.now k at) at }
{
    // The section is a number, as in the definition `fields` and in the evidence.
    match k {
        2 => event(c, s, at),
        3 | 8 => pair(c, s, k, at),
        4 => lock(c, s, at),
        5 => initial(c, s, at),
        7 => one(c.locks, s, k, at),
        _ => one(c.events, s, k, at),
    }
}

// An entry of section `k`, whole before its fields.
#[tactic(auto, unfolding(crate::specs::Form::entry, crate::specs::Form::due))]
pub fn entry(c: Counts, s: &[u8], k: u16, at: usize) -> Result<usize, Fault>
    requires { Section k }
    ensures { result ≡ entry c s.now k at }
{
    due(s, k, width(k), at)?;
    fields(c, s, k, at)
}
