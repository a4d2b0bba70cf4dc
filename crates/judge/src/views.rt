// Rule 24 and those after it, view by view.
ghost use Rattle.std.specs.Prelude.{ℕ, ◌≤◌, ◌<◌, ◌≡◌, true, length};
ghost use Rattle.order.specs.Rule.{Judged};
ghost use Rattle.order.specs.Evidence.{Given};
ghost use Rattle.rows.specs.Members.{Is};
ghost use Rattle.form.specs.Right.{Right};
ghost use Rattle.record.specs.Refusals.{answer_of, count_of};
ghost use Rattle.record.specs.Says.{execution_of};
ghost use Rattle.record.specs.Laid.{Laid, Views};
ghost use Rattle.facts.specs.Facts.{Mated, Sorted};
ghost use Rattle.model.specs.Model.{Sourced, Sees};
ghost use Rattle.model.specs.Rules.{order_rules};
ghost use Rattle.axioms.specs.Scene.{Sources, Scene};
ghost use Rattle.judge.specs.Later.{later_rule, QuietAt, Looked};
ghost use Rattle.judge.specs.Ordered.{Ordered};

use crate::arranged::arrange;
use crate::closer::closer;
use crate::{Known, Look};
use axioms::initial::uninitial;
use axioms::locked::torn;
use axioms::overwritten::overwritten;
use record::Part;
use record::lists::view_of;
use record::refusal::Refusal;
use rows::Set;

// Whether the view of p, which has passed rule 24, keeps the rules after it.
fn calm(s: &[u8], t: &[u64], q: &[u64], m: &[u64], u: &[u64], g: Known, seen: Set) -> bool
    requires right { Right s.now × Laid s.now g.layout × Is g.sourced (Sourced (execution_of s.now)) }
    requires sources { Sources (execution_of s.now) u.now × Mated (execution_of s.now) m.now × ((p : ℕ) × Scene (execution_of s.now) p t.now q.now g.classes seen) }
    ensures { (p : ℕ) → Scene (execution_of s.now) p t.now q.now g.classes seen → result ≡ true → (i : ℕ) → i < 3 → QuietAt (later_rule (execution_of s.now) i) p }
{
    let c = g.classes;
    let l = g.layout;
    let initials = l.initials;
    overwritten(t, q, u, c, seen).is_none()
        && uninitial(s, initials, t, q, c, g.sourced, seen).is_none()
        && torn(t, m, c.locked, seen).is_none()
}

// Looks at the view of p. A cycle is written behind p, into the part of the buffer after its first entry.
fn look(
    s: &[u8],
    view: Part,
    q: &[u64],
    m: &[u64],
    u: &[u64],
    h: &[u64],
    g: Known,
    seen: Set,
    p: usize,
    ev: &mut [u16],
) -> Look
    requires ordered { Ordered s.now q.now m.now u.now h.now g × (65 ≤ length ev.old) }
    requires p_bound { (p < (execution_of s.now).processors) × Views s.now p view × Is seen (Sees (execution_of s.now) p) }
    ensures { Looked (execution_of s.now) p ev.old ev.new result }
{
    let l = g.layout;
    let n = l.events;
    let mut t = [0u64; 64];
    arrange(s, n, view, h, &mut t);
    if let Some(k) = cycles::show(&t, n, &mut ev[1..]) {
        ev[0] = p as u16;
        return Look::Cycle(k + 1);
    }
    Look::Acyclic {
        calm: calm(s, &t, q, m, u, g, seen),
    }
}

// The rules 24 to 27.
pub fn from_twentyfour(
    s: &[u8],
    f: &[u64],
    q: &[u64],
    m: &[u64],
    u: &[u64],
    h: &[u64],
    g: Known,
    ev: &mut [u16],
) -> Result<(), Refusal>
    requires { Ordered s.now q.now m.now u.now h.now g × Sorted (execution_of s.now) f.now × (65 ≤ length ev.old) }
    ensures { Given (Judged (order_rules (execution_of s.now))) ev.old ev.new (answer_of result) (count_of result) }
{
    let n = g.layout.processors;
    let mut at = g.layout.views;
    let mut all = true;
    for p in 0..n {
        let view = view_of(s, p, at);
        let seen = rows::row(f, p) | g.classes.stores;
        match look(s, view, q, m, u, h, g, seen, p, ev) {
            Look::Cycle(count) => return Err(Refusal { answer: 24, count }),
            Look::Acyclic { calm } => all = all & calm,
        }
        at = view.at + view.count;
    }
    if all {
        return Ok(());
    }
    closer(s, f, q, m, u, h, g, ev)
}
