// The operation: the rules 28 to 31 behind form and structure, and the record that is written where they are kept.
ghost use Rattle.std.specs.Prelude.{ℕ, ◌≤◌, List, ◌++◌, length};
ghost use Rattle.order.specs.Rule.{Judged, AllKept};
ghost use Rattle.order.specs.Evidence.{Written};
ghost use Rattle.form.specs.Right.{Right};
ghost use Rattle.record.specs.Refusals.{answer_of};
ghost use Rattle.record.specs.Says.{execution_of};
ghost use Rattle.record.specs.Laid.{Laid};
ghost use Rattle.facts.specs.Facts.{Gathered};
ghost use Rattle.structure.specs.Structure.{structure_rules};
ghost use Rattle.sequences.specs.Sequence.{sequence_rules};
ghost use Rattle.replay.specs.Known.{Narrowed};
ghost use Rattle.readoff.specs.Bytes.{bytes_of};
ghost use Rattle.readoff.specs.Written.{WrittenOff, written_of, ReadOff};

use crate::bytes::put_front;
use crate::sections::{put_locks, put_some, put_sources, put_views};
use facts::Classes;
use facts::gather::gather;
use form::whole::whole;
use record::refusal::Refusal;
use record::sections::layout;
use record::{Layout, Verdict};
use replay::sequence::sequence;
use structure::rules::structure;

// Writes the record that is read off from the list, whose numbers are the first bytes of b; hands back its length.
fn write(
    s: &[u8],
    l: Layout,
    f: &[u64],
    q: &[u64],
    k: &[u64],
    c: Classes,
    b: &[u8],
    out: &mut [u8],
) -> usize
    requires gathered { Gathered s.now l f.now q.now k.now c × AllKept (structure_rules (execution_of s.now)) × (2346 ≤ length out.old) }
    requires by_index { (i : List ℕ) × AllKept (sequence_rules (execution_of s.now) i) × Narrowed (execution_of s.now).events.size i b.now }
    ensures { (i : List ℕ) → AllKept (sequence_rules (execution_of s.now) i) → Narrowed (execution_of s.now).events.size i b.now → Written (bytes_of s.now i) out.old out.new result }
{
    let list = &b[..l.events];
    let front = l.stores.at - 2;
    put_front(out, &s[..front]);
    let six = put_some(list, c.stores, out, front);
    let seven = put_locks(list, k, l.locks.count, c.locked, out, six);
    let eight = put_sources(list, q, c, out, seven);
    put_views(list, f, c.stores, l.processors, out, eight)
}

// The rules from 10 to 31 of a record that has the form, and the record that is read off.
fn from_ten(s: &[u8], l: Layout, list: &[u16], out: &mut [u8]) -> Result<usize, Refusal>
    requires { Right s.now × Laid s.now l × (2346 ≤ length out.old) }
    ensures { (e : List ℕ) × Judged (structure_rules (execution_of s.now) ++ sequence_rules (execution_of s.now) list.now) (answer_of result) e × WrittenOff s.now list.now out.old out.new (answer_of result) (written_of result) }
{
    let mut f = [0u64; 8];
    let mut q = [0u64; 64];
    let mut k = [0u64; 17];
    let mut t = [0u64; 64];
    let mut ev = [0u16; 65];
    let c = gather(s, l, &mut f, &mut q, &mut k);
    structure(s, l, &q, &k, c, &mut t, &mut ev)?;
    let mut b = [0u8; 64];
    let mut u = [0u64; 64];
    sequence(s, l, &k, c, list, &mut b, &mut u, &mut ev)?;
    Ok(write(s, l, &f, &q, &k, c, &b, out))
}

// The answer, and the length of the record that is written at the front of the lent buffer; 1 where that has fewer than 2,346 bytes.
pub fn read_off(s: &[u8], list: &[u16], out: &mut [u8]) -> Verdict
    ensures { ReadOff s.now list.now out.old out.new result.answer result.count }
{
    if out.len() < 2346 {
        return Verdict {
            answer: 1,
            count: 0,
        };
    }
    match whole(s) {
        Err(f) => Verdict {
            answer: f.answer,
            count: 0,
        },
        Ok(_) => match from_ten(s, layout(s), list, out) {
            Err(refusal) => Verdict {
                answer: refusal.answer,
                count: 0,
            },
            Ok(count) => Verdict { answer: 0, count },
        },
    }
}
