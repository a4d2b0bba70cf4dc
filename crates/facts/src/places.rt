// The events at one place.
ghost use Rattle.std.specs.Prelude.{◌≡◌, ◌<◌};
ghost use Rattle.rows.specs.Members.{In, Is};
ghost use Rattle.rows.specs.Table.{HasRows};
ghost use Rattle.form.specs.Right.{Right};
ghost use Rattle.record.specs.Says.{execution_of};
ghost use Rattle.record.specs.Words.{SamePlace};
ghost use Rattle.facts.specs.Facts.{Blank, Sorted, Slotted, Peers, Placed};

use crate::sets::keep;
use record::events::event_of;
use rows::Set;

// The members of `left` that may be at the place of event e: memory events, or register events of its processor.
fn peers(s: &[u8], f: &[u64], left: Set, e: usize) -> Set
    requires { Right s.now × Sorted (execution_of s.now) f.now × (e < (execution_of s.now).events.size) }
    ensures { Is result (λ k. In left k × Peers (execution_of s.now) e k) }
{
    let x = event_of(s, e);
    if x.kind < 2 {
        return left & (rows::row(f, 4) | rows::row(f, 5));
    }
    left & rows::row(f, x.processor) & (rows::row(f, 6) | rows::row(f, 7))
}

// Row v gets the events whose place is v modulo 64.
fn put_slots(s: &[u8], n: usize, t: &mut [u64])
    requires { Right s.now × (n ≡ (execution_of s.now).events.size) × HasRows t.old 64 × Blank t.old }
    ensures { Slotted (execution_of s.now) t.new }
{
    for e in 0..n {
        rows::link(t, event_of(s, e).place % 64, e);
    }
}

// The members of `left` at the place of event e; registers have numbers below 64, so that a row tells them apart.
fn alike(s: &[u8], f: &[u64], t: &[u64], left: Set, e: usize) -> Set
    requires { Right s.now × Sorted (execution_of s.now) f.now × Slotted (execution_of s.now) t.now × (e < (execution_of s.now).events.size) }
    ensures { Is result (λ k. In left k × ((k < (execution_of s.now).events.size) × SamePlace ((execution_of s.now).events.item e) ((execution_of s.now).events.item k))) }
{
    let x = event_of(s, e);
    let place = x.place;
    let near = left & rows::row(t, place % 64);
    let possible = peers(s, f, near, e);
    if 2 <= x.kind {
        return possible;
    }
    keep(possible, |k| event_of(s, k).place == place)
}

// Row a gets the events at a's place, which are found by the rows of t.
fn put_places(s: &[u8], n: usize, f: &[u64], t: &[u64], q: &mut [u64])
    requires { Right s.now × (n ≡ (execution_of s.now).events.size) × Sorted (execution_of s.now) f.now × Slotted (execution_of s.now) t.now × HasRows q.old 64 × Blank q.old }
    ensures { Placed (execution_of s.now) q.new }
{
    let mut left = Set::full(n);
    while let Some(e) = left.first() {
        let like = alike(s, f, t, left, e);
        rows::spread(q, like, like);
        left = left - like;
    }
}

// Row a gets the events at a's place.
pub fn place(s: &[u8], n: usize, f: &[u64], q: &mut [u64])
    requires { Right s.now × (n ≡ (execution_of s.now).events.size) × Sorted (execution_of s.now) f.now × HasRows q.old 64 × Blank q.old }
    ensures { Placed (execution_of s.now) q.new }
{
    let mut t = [0u64; 64];
    put_slots(s, n, &mut t);
    put_places(s, n, f, &t, q);
}
