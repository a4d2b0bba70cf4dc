// Sections 6 to 9 of the read-off. Each is written at a place, its count last but that of section 9, and its end handed back. The numbers of the list are bytes.
// The buffer and the place stay two arguments: the count goes to a place that a writer would have left behind.
ghost use Rattle.std.specs.Prelude.{ℕ, ◌+◌, ◌*◌, ◌≤◌, ◌<◌, ◌≡◌, Bool, [], ◌++◌, length, EachIndex};
ghost use Rattle.order.specs.Decides.{Decides};
ghost use Rattle.order.specs.Least.{Some, Found};
ghost use Rattle.rows.specs.Members.{In, Is};
ghost use Rattle.rows.specs.Table.{HasRows, rel};
ghost use Rattle.record.specs.Execution.{Execution};
ghost use Rattle.record.specs.Words.{OfLock};
ghost use Rattle.facts.specs.Facts.{Sorted, Placed, Entered, Classed};
ghost use Rattle.structure.specs.Structure.{Repeated};
ghost use Rattle.sequences.specs.Sequence.{steps};
ghost use Rattle.sequences.specs.ReadOff.{picked, locks_from, sources_from};
ghost use Rattle.form.specs.Bytes.{two_bytes, counted};
ghost use Rattle.readoff.specs.Bytes.{pairs, views};
ghost use Rattle.lent.specs.Put.{PutTo};

use crate::bytes::put_count;
use facts::Classes;
use replay::State;
use rows::Set;

// The numbers of the list that are in the set, in list order.
pub fn put_some(list: &[u8], some: Set, out: &mut [u8], at: usize) -> usize
    requires { EachIndex list.now (λ i. (steps list.now).item i < 64) × (length list.now ≤ 64) × (at + 2 + length list.now ≤ length out.old) }
    ensures { (test : ℕ → Bool) → EachIndex list.now (λ i. Decides (test ((steps list.now).item i)) (In some ((steps list.now).item i))) → PutTo out.old at (counted (picked test list.now)) out.new result }
{
    let mut to = at + 2;
    for e in list {
        if some.has(*e as usize) {
            out[to] = *e;
            to += 1;
        }
    }
    put_count(out, at, to - at - 2);
    to
}

// The first of the g rows of k that has e.
fn entry_of(k: &[u64], g: usize, e: usize) -> Option<usize>
    requires { HasRows k.now g × (e < 64) }
    ensures { Found g (λ i. rel k.now i e) result }
{
    for i in 0..g {
        if rows::linked(k, i, e) {
            return Some(i);
        }
    }
    None
}

// Section 7: the locked entries, where the list first comes to an event of each. The first g rows of k are those of the entries.
pub fn put_locks(list: &[u8], k: &[u64], g: usize, locked: Set, out: &mut [u8], at: usize) -> usize
    requires { EachIndex list.now (λ i. (steps list.now).item i < 64) × (length list.now ≤ 64) × HasRows k.now 17 × (g ≤ 16) × (at + 2 + length list.now ≤ length out.old) }
    ensures { (z : Execution) → Entered z k.now → g ≡ z.locks.size → Is locked (λ e. Some z.locks.size (λ i. OfLock z i e)) → ((i : ℕ) → Repeated z i → ⊥) → EachIndex list.now (λ i. (steps list.now).item i < z.events.size) → PutTo out.old at (counted (locks_from z [] list.now)) out.new result }
{
    let mut left = locked;
    let mut to = at + 2;
    for e in list {
        let e = *e as usize;
        if left.has(e) {
            if let Some(j) = entry_of(k, g, e) {
                out[to] = j as u8;
                to += 1;
                left = left - rows::row(k, j);
            }
        }
    }
    put_count(out, at, to - at - 2);
    to
}

// Section 8: each read's last earlier write of its place.
pub fn put_sources(list: &[u8], q: &[u64], c: Classes, out: &mut [u8], at: usize) -> usize
    requires { EachIndex list.now (λ i. (steps list.now).item i < 64) × (length list.now ≤ 64) × HasRows q.now 64 × (at + 2 + 2 * length list.now ≤ length out.old) }
    ensures { (z : Execution) → Placed z q.now → Classed z c → EachIndex list.now (λ i. (steps list.now).item i < z.events.size) → PutTo out.old at (two_bytes (length (sources_from z [] list.now)) ++ pairs (sources_from z [] list.now)) out.new result }
{
    let reads = c.loads | c.gets;
    let mut state = State::new();
    let mut to = at + 2;
    for e in list {
        let e = *e as usize;
        if reads.has(e) {
            if let Some(w) = state.source(q, e) {
                out[to] = w as u8;
                out[to + 1] = e as u8;
                to += 2;
            }
        }
        state = state.step(q, c, e);
    }
    put_count(out, at, (to - at - 2) / 2);
    to
}

// Section 9: what each of the m processors sees, in list order.
pub fn put_views(list: &[u8], f: &[u64], stores: Set, m: usize, out: &mut [u8], at: usize) -> usize
    requires { EachIndex list.now (λ i. (steps list.now).item i < 64) × (length list.now ≤ 64) × HasRows f.now 8 × (m ≤ 4) × (at + 2 + m * 66 ≤ length out.old) }
    ensures { (z : Execution) → Sorted z f.now → Is stores (λ e. (e < z.events.size) × ((z.events.item e).kind ≡ 1)) → EachIndex list.now (λ i. (steps list.now).item i < z.events.size) → PutTo out.old at (two_bytes m ++ views z list.now m) out.new result }
{
    put_count(out, at, m);
    let mut to = at + 2;
    for p in 0..m {
        to = put_some(list, rows::row(f, p) | stores, out, to);
    }
    to
}
