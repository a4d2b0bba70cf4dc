// The rules 25 to 27, rule by rule and view by view. Every view has passed rule 24.
ghost use Rattle.std.specs.Prelude.{◌≤◌, ◌<◌, length};
ghost use Rattle.order.specs.Rule.{Judged};
ghost use Rattle.order.specs.Relation.{Cyclic};
ghost use Rattle.order.specs.Evidence.{Given, Ruled};
ghost use Rattle.rows.specs.Members.{Is};
ghost use Rattle.form.specs.Right.{Right};
ghost use Rattle.record.specs.Execution.{Execution};
ghost use Rattle.record.specs.Refusals.{answer_of, count_of};
ghost use Rattle.record.specs.Says.{execution_of};
ghost use Rattle.record.specs.Laid.{Laid, Views};
ghost use Rattle.facts.specs.Facts.{Mated, Classed, Sorted};
ghost use Rattle.model.specs.Model.{Sourced, Sees, OrderFor};
ghost use Rattle.axioms.specs.Scene.{Viewed, Sources, Scene};
ghost use Rattle.judge.specs.Later.{later_rule, later_rules, place, RuledAt};
ghost use Rattle.judge.specs.Ordered.{Ordered, NoCycle, ReadsSeen, LocksSeen};

use crate::arranged::arrange;
use crate::{Known, Later};
use axioms::initial::{Start, preceding, start_of, uninitial};
use axioms::locked::{tearing, torn, torn_from};
use axioms::overwritten::{overwriting, overwritten, overwritten_from};
use record::Part;
use record::lists::view_of;
use record::refusal::Refusal;
use rows::Set;

// 25 in the view of p: writes the evidence and returns how many entries it has.
fn show_overwritten(
    t: &[u64],
    q: &[u64],
    u: &[u64],
    g: Known,
    seen: Set,
    p: usize,
    ev: &mut [u16],
) -> Option<usize>
    requires { ReadsSeen p t.now q.now u.now g.classes seen × (p < 4) × (65 ≤ length ev.old) }
    ensures { (z : Execution) → Scene z p t.now q.now g.classes seen → Sources z u.now → RuledAt (later_rule z 0) p ev.old ev.new result }
{
    let c = g.classes;
    let w = overwritten(t, q, u, c, seen)?;
    // There are both: that is what w was found by.
    let r = overwritten_from(t, q, u, c, seen, w).unwrap();
    let x = overwriting(t, q, c, seen, w, r).first().unwrap();
    ev[0] = p as u16;
    ev[1] = w as u16;
    ev[2] = r as u16;
    ev[3] = x as u16;
    Some(4)
}

// 26 in the view of p.
fn show_uninitial(
    s: &[u8],
    t: &[u64],
    q: &[u64],
    g: Known,
    seen: Set,
    p: usize,
    ev: &mut [u16],
) -> Option<usize>
    requires right { Right s.now × Laid s.now g.layout × Is g.sourced (Sourced (execution_of s.now)) }
    requires scene { Scene (execution_of s.now) p t.now q.now g.classes seen × (p < 4) × (65 ≤ length ev.old) }
    ensures { RuledAt (later_rule (execution_of s.now) 1) p ev.old ev.new result }
{
    let c = g.classes;
    let l = g.layout;
    let initials = l.initials;
    let r = uninitial(s, initials, t, q, c, g.sourced, seen)?;
    let start = start_of(s, initials, r);
    ev[0] = p as u16;
    ev[1] = r as u16;
    ev[2] = start as u16;
    if start != Start::Same {
        return Some(3);
    }
    // There is one: that is what r was found by.
    let x = preceding(t, q, c, seen, r).first().unwrap();
    ev[3] = x as u16;
    Some(4)
}

// 27 in the view of p.
fn show_torn(t: &[u64], m: &[u64], g: Known, seen: Set, p: usize, ev: &mut [u16]) -> Option<usize>
    requires { LocksSeen p t.now m.now g.classes seen × (p < 4) × (65 ≤ length ev.old) }
    ensures { (z : Execution) → Viewed z p t.now seen → Mated z m.now → Classed z g.classes → RuledAt (later_rule z 2) p ev.old ev.new result }
{
    let c = g.classes;
    let a = torn(t, m, c.locked, seen)?;
    // There are both: that is what a was found by.
    let x = tearing(t, m, seen, a).unwrap();
    let b = torn_from(t, m, seen, a, x).first().unwrap();
    ev[0] = p as u16;
    ev[1] = a as u16;
    ev[2] = x as u16;
    ev[3] = b as u16;
    Some(4)
}

// A later rule in the view of p.
fn show(
    rule: Later,
    s: &[u8],
    view: Part,
    q: &[u64],
    m: &[u64],
    u: &[u64],
    h: &[u64],
    g: Known,
    seen: Set,
    p: usize,
    ev: &mut [u16],
) -> Option<usize>
    requires ordered { Ordered s.now q.now m.now u.now h.now g × (65 ≤ length ev.old) }
    requires p_bound { (p < (execution_of s.now).processors) × Views s.now p view × Is seen (Sees (execution_of s.now) p) × (Cyclic (OrderFor (execution_of s.now) p) → ⊥) }
    ensures { RuledAt (later_rule (execution_of s.now) (place rule)) p ev.old ev.new result }
{
    let l = g.layout;
    let mut t = [0u64; 64];
    arrange(s, l.events, view, h, &mut t);
    match rule {
        Later::Overwritten => show_overwritten(&t, q, u, g, seen, p, ev),
        Later::Uninitial => show_uninitial(s, &t, q, g, seen, p, ev),
        Later::Torn => show_torn(&t, m, g, seen, p, ev),
    }
}

// A later rule in the first view that breaks it: writes the evidence and returns how many entries it has.
fn seek(
    rule: Later,
    s: &[u8],
    f: &[u64],
    q: &[u64],
    m: &[u64],
    u: &[u64],
    h: &[u64],
    g: Known,
    ev: &mut [u16],
) -> Option<usize>
    requires { Ordered s.now q.now m.now u.now h.now g × Sorted (execution_of s.now) f.now × (65 ≤ length ev.old) × NoCycle (execution_of s.now) }
    ensures { Ruled (later_rule (execution_of s.now) (place rule)) ev.old ev.new result }
{
    let l = g.layout;
    let c = g.classes;
    let n = l.processors;
    let mut at = l.views;
    for p in 0..n {
        let view = view_of(s, p, at);
        let seen = rows::row(f, p) | c.stores;
        if let Some(count) = show(rule, s, view, q, m, u, h, g, seen, p, ev) {
            return Some(count);
        }
        at = view.at + view.count;
    }
    None
}

// The rules 25 to 27.
pub fn closer(
    s: &[u8],
    f: &[u64],
    q: &[u64],
    m: &[u64],
    u: &[u64],
    h: &[u64],
    g: Known,
    ev: &mut [u16],
) -> Result<(), Refusal>
    requires { Ordered s.now q.now m.now u.now h.now g × Sorted (execution_of s.now) f.now × (65 ≤ length ev.old) × NoCycle (execution_of s.now) }
    ensures { Given (Judged (later_rules (execution_of s.now))) ev.old ev.new (answer_of result) (count_of result) }
{
    if let Some(count) = seek(Later::Overwritten, s, f, q, m, u, h, g, ev) {
        return Err(Refusal { answer: 25, count });
    }
    if let Some(count) = seek(Later::Uninitial, s, f, q, m, u, h, g, ev) {
        return Err(Refusal { answer: 26, count });
    }
    if let Some(count) = seek(Later::Torn, s, f, q, m, u, h, g, ev) {
        return Err(Refusal { answer: 27, count });
    }
    Ok(())
}
