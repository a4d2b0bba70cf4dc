// The rules 28 to 31: each function judges by the rules from its number on.
ghost use Rattle.std.specs.Prelude.{ℕ, ◌≤◌, ◌<◌, ◌≡◌, ◌↔◌, List, length, drop, IfNone, IfOk};
ghost use Rattle.order.specs.Least.{Found};
ghost use Rattle.order.specs.Rule.{Judged};
ghost use Rattle.order.specs.Evidence.{Given};
ghost use Rattle.rows.specs.Table.{HasRows, rel};
ghost use Rattle.form.specs.Right.{Right};
ghost use Rattle.record.specs.Execution.{Execution};
ghost use Rattle.record.specs.Refusals.{answer_of, count_of};
ghost use Rattle.record.specs.Says.{execution_of};
ghost use Rattle.record.specs.Laid.{Laid};
ghost use Rattle.facts.specs.Facts.{Blank, Entered, Mated, Classed};
ghost use Rattle.model.specs.Model.{Before};
ghost use Rattle.axioms.specs.Scene.{Lined};
ghost use Rattle.sequences.specs.Sequence.{steps, sequence_rules};
ghost use Rattle.replay.specs.Known.{Narrowed, Sequenced};

use axioms::locked::{tearing, torn, torn_from};
use axioms::witness::misplaced;
use facts::Classes;
use facts::locks::mate;
use orders::lists::put_order;
use record::refusal::Refusal;
use record::{Layout, Part};
use rows::Set;

// 29: the first number that is not below n. Where there is none, the numbers are the first n bytes of b.
fn narrow(list: &[u16], n: usize, b: &mut [u8]) -> Option<usize>
    requires { (n ≡ length list.now) × (n ≤ 64) × (n ≤ length b.old) }
    ensures found { Found n (λ i. (i < length list.now) × (n ≤ (steps list.now).item i)) result }
    ensures narrowed { IfNone result (Narrowed n list.now b.new) }
{
    for (i, e) in list.iter().enumerate() {
        let e = *e as usize;
        if n <= e {
            return Some(i);
        }
        b[i] = e as u8;
    }
    None
}

// The table u has the order of the list, which has the members of `all` once each.
fn from_thirtyone(m: &[u64], u: &[u64], c: Classes, all: Set, ev: &mut [u16]) -> Result<(), Refusal>
    requires has_rows { HasRows m.now 64 × HasRows u.now 64 × (65 ≤ length ev.old) }
    requires by_index { (z : Execution) × (l : List ℕ) × Lined z (steps l) u.now all × Mated z m.now × Classed z c }
    ensures { (z : Execution) (l : List ℕ) → Lined z (steps l) u.now all → Mated z m.now → Classed z c → Given (Judged (drop 3 (sequence_rules z l))) ev.old ev.new (answer_of result) (count_of result) }
{
    if let Some(a) = torn(u, m, c.locked, all) {
        // There are both: that is what a was found by.
        let x = tearing(u, m, all, a).unwrap();
        let b = torn_from(u, m, all, a, x).first().unwrap();
        ev[0] = a as u16;
        ev[1] = x as u16;
        ev[2] = b as u16;
        return Err(Refusal {
            answer: 31,
            count: 3,
        });
    }
    Ok(())
}

// The numbers of the list are the first bytes of b. Where the answer is 0, the table u has its order.
fn from_thirty(
    s: &[u8],
    l: Layout,
    k: &[u64],
    c: Classes,
    b: &[u8],
    u: &mut [u64],
    ev: &mut [u16],
) -> Result<(), Refusal>
    requires right { Right s.now × Laid s.now l × Entered (execution_of s.now) k.now × Classed (execution_of s.now) c × (HasRows u.old 64 × Blank u.old) × (65 ≤ length ev.old) }
    requires by_index { (i : List ℕ) × Narrowed (execution_of s.now).events.size i b.now × (length i ≡ (execution_of s.now).events.size) }
    ensures by_index_2 { (i : List ℕ) → Narrowed (execution_of s.now).events.size i b.now → length i ≡ (execution_of s.now).events.size → Given (Judged (drop 2 (sequence_rules (execution_of s.now) i))) ev.old ev.new (answer_of result) (count_of result) }
    ensures by_index_3 { (i : List ℕ) → Narrowed (execution_of s.now).events.size i b.now → length i ≡ (execution_of s.now).events.size → answer_of result ≡ 0 → HasRows u.new 64 × ((x y : ℕ) → rel u.new x y ↔ Before (steps i) x y) }
{
    let n = l.events;
    let all = Set::full(n);
    let list = Part { at: 0, count: n };
    if let Some(e) = misplaced(b, list, all) {
        ev[0] = e as u16;
        return Err(Refusal {
            answer: 30,
            count: 1,
        });
    }
    let mut m = [0u64; 64];
    mate(s, l.locks, k, &mut m);
    put_order(b, list, u);
    from_thirtyone(&m, u, c, all, ev)
}

// The rules 28 to 31. Where they are kept, the numbers of the list are the first bytes of b, and the table u has its order.
pub fn sequence(
    s: &[u8],
    l: Layout,
    k: &[u64],
    c: Classes,
    list: &[u16],
    b: &mut [u8],
    u: &mut [u64],
    ev: &mut [u16],
) -> Result<(), Refusal>
    requires { Right s.now × Laid s.now l × Entered (execution_of s.now) k.now × Classed (execution_of s.now) c × (64 ≤ length b.old) × (HasRows u.old 64 × Blank u.old) × (65 ≤ length ev.old) }
    ensures sequenced { IfOk result (λ _. Sequenced (execution_of s.now) list.now b.new u.new) }
    ensures given { Given (Judged (sequence_rules (execution_of s.now) list.now)) ev.old ev.new (answer_of result) (count_of result) }
{
    let n = l.events;
    if list.len() != n {
        return Err(Refusal {
            answer: 28,
            count: 0,
        });
    }
    if let Some(i) = narrow(list, n, b) {
        ev[0] = i as u16;
        return Err(Refusal {
            answer: 29,
            count: 1,
        });
    }
    from_thirty(s, l, k, c, b, u, ev)
}
