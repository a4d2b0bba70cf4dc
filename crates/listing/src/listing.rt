// The listing.
ghost use Rattle.std.specs.Prelude.{ℕ, ◌+◌, ◌*◌, ◌≤◌, ◌<◌, ◌≡◌, List, length, get_or};
ghost use Rattle.order.specs.Decides.{Decides};
ghost use Rattle.order.specs.Least.{Counted};
ghost use Rattle.rows.specs.Table.{HasRows, rel};
ghost use Rattle.lent.specs.Put.{PutTo};
ghost use Rattle.listing.specs.Listing.{verdict, event_lines, Ordered, Listed};

use crate::numbers::{put_number, put_numbers, put_word};
use form::bytes::count_at;
use judge::check::check;
use table::order_table;

// A line for each of the first n events: its number, and how many events it happens directly before.
fn put_events(out: &mut [u8], at: usize, t: &[u64], n: usize) -> usize
    requires { HasRows t.now n × (n ≤ 64) × (at + 18 * n ≤ length out.old) }
    ensures { (cs : List ℕ) → n ≡ length cs → ((e : ℕ) → e < n → Counted 64 (rel t.now e) (get_or cs e 0)) → PutTo out.old at (event_lines 0 cs) out.new result }
{
    let mut to = at;
    for e in 0..n {
        to = put_word(out, to, b"event");
        to = put_number(out, to, e);
        to = put_number(out, to, rows::row(t, e).size() as usize);
        to = put_word(out, to, b"\n");
    }
    to
}

// The lines of the answer and of its evidence.
fn put_verdict(out: &mut [u8], answer: u16, ev: &[u16]) -> usize
    requires { (length ev.now ≤ 65) × (412 ≤ length out.old) }
    ensures { PutTo out.old 0 (verdict answer ev.now) out.new result }
{
    let a = put_word(out, 0, b"answer");
    let b = put_number(out, a, answer as usize);
    let c = put_word(out, b, b"\nevidence");
    let d = put_numbers(out, c, ev);
    put_word(out, d, b"\n")
}

// Whether the lines of the events are listed behind an answer.
fn lists_events(answer: u16) -> bool
    ensures { Decides result (Ordered answer) }
{
    matches!(answer, 0 | 24..=27)
}

// Writes the listing of the record at the front of the lent buffer and hands back its length; 0 where that has fewer than 2,048 bytes.
pub fn list(s: &[u8], out: &mut [u8]) -> usize
    ensures { Listed s.now out.old out.new result }
{
    // No listing is empty: 0 is the operation's own word for a buffer that is too small.
    if out.len() < 2048 {
        return 0;
    }
    let mut ev = [0u16; 65];
    let v = check(s, &mut ev);
    let at = put_verdict(out, v.answer, &ev[..v.count]);
    if lists_events(v.answer) {
        let mut t = [0u64; 64];
        order_table(s, &mut t);
        return put_events(out, at, &t, count_at(s, 2));
    }
    at
}
