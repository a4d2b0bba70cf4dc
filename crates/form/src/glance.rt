// A quick look over the entries of a section: how many of them, from the first on, are right. What it does not see to be right
// is read entry by entry. A loop here does not end early, so that it can compare many entries at a time.
ghost use Rattle.std.specs.Prelude.{◌≡◌, ℕ, true, Ok, ◌+◌, ◌/◌, ◌%◌, ◌≤◌, ◌<◌, length};
ghost use Rattle.form.specs.Bytes.{num};
ghost use Rattle.form.specs.Form.{Section, width, fields_from, event_fields, lock_fields, initial_fields};
ghost use Rattle.form.specs.Seen.{Leading, FieldsRight, Seen};

use crate::Counts;
use crate::entry::width;

// How many of the `m` bytes at `at` are seen to be below `n`: all, or 0.
fn below(s: &[u8], n: usize, at: usize, m: usize) -> usize
    ensures { Leading s.now n at m result }
{
    if s.len() < at || s.len() - at < m {
        return 0;
    }
    let mut most: u8 = 0;
    for b in &s[at..at + m] {
        most = most.max(*b);
    }
    if usize::from(most) < n { m } else { 0 }
}

// The number of the four bytes from `at`, the lowest first, as one word, and what its parts are.
fn word(s: &[u8], at: usize) -> u32
    requires { at + 4 ≤ length s.now }
    ensures value { result ≡ num 4 s.now at }
    ensures first { result % 256 ≡ num 1 s.now at }
    ensures second { result / 256 % 256 ≡ num 1 s.now (at + 1) }
    ensures upper { result / 65536 ≡ num 2 s.now (at + 2) }
{
    let a = s[at] as u32;
    let b = s[at + 1] as u32;
    let c = s[at + 2] as u32;
    let d = s[at + 3] as u32;
    a + 256 * b + 65536 * c + 16777216 * d
}

// True only where the fields of an event are right.
#[tactic(auto, using(crate::proofs::Flags::event_flag))]
fn event_right(c: Counts, s: &[u8], at: usize) -> bool
    requires { (c.processors < 256) × (at + 12 ≤ length s.now) }
    ensures { result ≡ true → Ok (at + 12) ≡ fields_from 2 (event_fields c s.now at) at }
{
    let processors = c.processors as u32;
    let head = word(s, at);
    let place = word(s, at + 4);
    let kind = head / 256 % 256;
    let memory = (kind < 2) & (place % 4 == 0);
    let register = (2 <= kind) & (kind <= 3) & (place <= 14);
    (head % 256 < processors) & (memory | register)
}

// True only where the fields of an initial value are right.
#[tactic(auto, using(crate::proofs::Flags::initial_flag))]
fn initial_right(c: Counts, s: &[u8], at: usize) -> bool
    requires { (c.processors < 256) × (at + 12 ≤ length s.now) }
    ensures { result ≡ true → Ok (at + 12) ≡ fields_from 5 (initial_fields c s.now at) at }
{
    let processors = c.processors as u32;
    let head = word(s, at);
    let place = word(s, at + 4);
    let memory = (head == 0) & (place % 4 == 0);
    let register = (256 <= head) & (head < 256 + processors) & (place <= 14);
    memory | register
}

// True only where the fields of a locked instruction are right.
#[tactic(auto, using(crate::proofs::Flags::lock_flag))]
fn lock_right(c: Counts, s: &[u8], at: usize) -> bool
    requires { (c.processors < 256) × (at + 4 ≤ length s.now) }
    ensures { result ≡ true → Ok (at + 4) ≡ fields_from 4 (lock_fields c s.now at) at }
{
    let processors = c.processors as u32;
    word(s, at) % 65536 < processors
}

// How many of the `m` entries of section `k` at `at` are seen to be right: all, or 0. `is_right` is true only where the fields of an entry
// are right.
fn all_right<F: Fn(usize) -> bool>(
    c: Counts,
    s: &[u8],
    k: u16,
    m: usize,
    at: usize,
    is_right: F,
) -> usize
    requires section { Section k × (m < 65536) }
    requires asked { (a : ℕ) → c.processors < 256 → a + width k ≤ length s.now → F.pre is_right a }
    requires told { (a : ℕ) → c.processors < 256 → a + width k ≤ length s.now → F.post is_right a true → FieldsRight c s.now k a }
    ensures { Seen c s.now k m at result }
{
    let len = width(k);
    if 255 < c.processors || s.len() < at || s.len() - at < len * m {
        return 0;
    }
    let mut right = true;
    for i in 0..m {
        right = right & is_right(at + len * i);
    }
    if right { m } else { 0 }
}

// How many of the `m` entries of section `k` at `at` are seen to be right.
#[tactic(auto, unfolding(crate::specs::Form::width, crate::specs::Form::fields))]
pub fn glance(c: Counts, s: &[u8], k: u16, m: usize, at: usize) -> usize
    requires { Section k × (m < 65536) }
    ensures { Seen c s.now k m at result }
{
    match k {
        2 => all_right(c, s, 2, m, at, |a| event_right(c, s, a)),
        3 | 8 => below(s, c.events, at, 2 * m) / 2,
        4 => all_right(c, s, 4, m, at, |a| lock_right(c, s, a)),
        5 => all_right(c, s, 5, m, at, |a| initial_right(c, s, a)),
        6 | 9 => below(s, c.events, at, m),
        7 => below(s, c.locks, at, m),
        _ => 0,
    }
}
