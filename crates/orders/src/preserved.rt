// Preserved order, program by program and instruction by instruction.
ghost use Rattle.std.specs.Prelude.{◌⊎◌, ℕ, ◌<◌, IfSome};
ghost use Rattle.rows.specs.Members.{In, Is};
ghost use Rattle.rows.specs.Table.{HasRows, rel, Adds};
ghost use Rattle.form.specs.Right.{Right};
ghost use Rattle.record.specs.Execution.{Execution};
ghost use Rattle.record.specs.Says.{execution_of};
ghost use Rattle.facts.specs.Facts.{Sorted, Placed, Classed};
ghost use Rattle.model.specs.Model.{KeepsOrder, Preserved};
ghost use Rattle.orders.specs.Programs.{Program, Earliest, Headed, OneInstruction};

use facts::Classes;
use record::events::event_of;
use rows::Set;

// The members of rest with the least index, which has two bytes. One pass finds the least and keeps its events.
fn earliest(s: &[u8], rest: Set) -> Set
    requires { Right s.now × ((e : ℕ) → In rest e → e < (execution_of s.now).events.size) }
    ensures { Is result (Earliest (execution_of s.now) rest) }
{
    let mut least = u16::MAX as usize;
    let mut r = Set::none();
    for e in rest {
        let x = event_of(s, e);
        if x.index < least {
            least = x.index;
            r = Set::one(e);
        } else if x.index == least {
            r = r | Set::one(e);
        }
    }
    r
}

// Adds the steps from members of x to those members of later that q relates them to or that `always` has.
fn put_steps(t: &mut [u64], q: &[u64], x: Set, later: Set, always: Set)
    requires { HasRows t.old 64 × HasRows q.now 64 }
    ensures { Adds t.old t.new (λ a b. In x a × (In later b × (rel q.now a b ⊎ In always b))) }
{
    for a in x {
        rows::add(t, a, later & (rows::row(q, a) | always));
    }
}

// Adds preserved order from the events of one instruction, `here`, to events later in its program.
fn put_instruction(t: &mut [u64], q: &[u64], c: Classes, here: Set, later: Set)
    requires { HasRows t.old 64 × HasRows q.now 64 }
    ensures { (z : Execution) → Placed z q.now → Classed z c → Program z here → Program z later → OneInstruction z here → Adds t.old t.new (λ a b. In here a × (In later b × KeepsOrder z a b)) }
{
    let memory = c.loads | c.stores;
    let held = if here.meets(c.locked) {
        memory
    } else {
        Set::none()
    };
    put_steps(t, q, here & c.loads, later, memory | c.locked);
    put_steps(t, q, here & c.stores, later, held | c.stores | c.locked);
    put_steps(t, q, here - memory, later, held);
}

// The members of own with which an instruction begins, if the indexes do not fall as the numbers rise.
fn heads(s: &[u8], own: Set) -> Option<Set>
    requires { Right s.now × ((e : ℕ) → In own e → e < (execution_of s.now).events.size) }
    ensures { IfSome result (Headed (execution_of s.now) (In own)) }
{
    let mut next = 0;
    let mut r = Set::none();
    for e in own {
        let i = event_of(s, e).index;
        if next <= i {
            next = i + 1;
            r = r | Set::one(e);
        } else if i + 1 < next {
            return None;
        }
    }
    Some(r)
}

// Adds preserved order among the events of one processor, which stand in order: before each head an instruction ends.
fn put_ordered(q: &[u64], c: Classes, own: Set, heads: Set, t: &mut [u64])
    requires { HasRows t.old 64 × HasRows q.now 64 }
    ensures { (z : Execution) → Placed z q.now → Classed z c → Program z own → Headed z (In own) heads → Adds t.old t.new (λ a b. In own a × (In own b × Preserved z a b)) }
{
    let mut rest = own;
    for h in heads {
        let here = rest & Set::full(h);
        rest = rest - here;
        put_instruction(t, q, c, here, rest);
    }
}

// Adds preserved order among the events of one processor, which stand in any order. Each step takes out a set, so the loop is no `for`.
fn put_unordered(s: &[u8], q: &[u64], c: Classes, own: Set, t: &mut [u64])
    requires { Right s.now × Placed (execution_of s.now) q.now × Classed (execution_of s.now) c × Program (execution_of s.now) own × HasRows t.old 64 }
    ensures { Adds t.old t.new (λ a b. In own a × (In own b × Preserved (execution_of s.now) a b)) }
{
    let mut rest = own;
    while rest.any() {
        let here = earliest(s, rest);
        rest = rest - here;
        put_instruction(t, q, c, here, rest);
    }
}

// Adds preserved order among the events of one processor.
fn put_program(s: &[u8], q: &[u64], c: Classes, own: Set, t: &mut [u64])
    requires { Right s.now × Placed (execution_of s.now) q.now × Classed (execution_of s.now) c × Program (execution_of s.now) own × HasRows t.old 64 }
    ensures { Adds t.old t.new (λ a b. In own a × (In own b × Preserved (execution_of s.now) a b)) }
{
    match heads(s, own) {
        Some(begun) => put_ordered(q, c, own, begun, t),
        None => put_unordered(s, q, c, own, t),
    }
}

// Adds preserved order.
pub fn put_preserved(s: &[u8], f: &[u64], q: &[u64], c: Classes, t: &mut [u64])
    requires { Right s.now × Sorted (execution_of s.now) f.now × Placed (execution_of s.now) q.now × Classed (execution_of s.now) c × HasRows t.old 64 }
    ensures { Adds t.old t.new (Preserved (execution_of s.now)) }
{
    for p in 0..4 {
        put_program(s, q, c, rows::row(f, p), t);
    }
}
