// Orders that a list gives: each earlier item is related to each later one.
ghost use Rattle.std.specs.Prelude.{ℕ, ◌<◌};
ghost use Rattle.rows.specs.Members.{In, Is};
ghost use Rattle.rows.specs.Table.{HasRows, rel, Adds};
ghost use Rattle.form.specs.Right.{Right};
ghost use Rattle.record.specs.Says.{execution_of};
ghost use Rattle.record.specs.Laid.{Stands};
ghost use Rattle.facts.specs.Lists.{list_of, Listed};
ghost use Rattle.model.specs.Model.{Before, Source, Sourced};
ghost use Rattle.orders.specs.Groups.{BeforeIn};
ghost use Rattle.orders.specs.Walks.{Itself, Walked};

use facts::lists::number;
use record::Part;
use record::lists::{reader_of, source_of};
use rows::Set;

// Walks a list of events from its end. Each gets a step to each later one that `to(event)` has.
fn walk_back<T: Fn(usize) -> Set>(s: &[u8], list: Part, t: &mut [u64], to: T)
    requires listed { Listed s.now 64 list × HasRows t.old 64 }
    requires callable { (i : ℕ) → i < list.count → T.pre to ((list_of s.now list).item i) }
    ensures { Walked Itself (T.post to) (list_of s.now list) t.old t.new }
{
    let mut later = Set::none();
    for i in (0..list.count).rev() {
        let e = number(s, list, i);
        rows::add(t, e, later & to(e));
        later = later | Set::one(e);
    }
}

// Adds the order of a list of events.
pub fn put_order(s: &[u8], list: Part, t: &mut [u64])
    requires { Listed s.now 64 list × HasRows t.old 64 }
    ensures { Adds t.old t.new (Before (list_of s.now list)) }
{
    walk_back(s, list, t, |_| Set::full(64));
}

// Adds the order of a list of events, as far as it is a step of q to a member of `some`.
pub fn put_part_of_order(s: &[u8], list: Part, q: &[u64], some: Set, t: &mut [u64])
    requires { Listed s.now 64 list × HasRows q.now 64 × HasRows t.old 64 }
    ensures { Adds t.old t.new (λ a b. Before (list_of s.now list) a b × (rel q.now a b × In some b)) }
{
    walk_back(s, list, t, |e| rows::row(q, e) & some);
}

// Adds the order of a list of rows of k: every member of an earlier row to every member of a later one. It has a walk of its own: by one
// walk for both, an event goes as a set of one, and that takes two to four times the instructions.
pub fn put_order_of_groups(s: &[u8], list: Part, k: &[u64], t: &mut [u64])
    requires { Listed s.now 16 list × HasRows k.now 16 × HasRows t.old 64 }
    ensures { Adds t.old t.new (BeforeIn (rel k.now) (list_of s.now list)) }
{
    let mut later = Set::none();
    for i in (0..list.count).rev() {
        let here = rows::row(k, number(s, list, i));
        rows::spread(t, here, later);
        later = later | here;
    }
}

// Adds the pairs of section 8.
pub fn put_sources(s: &[u8], sources: Part, t: &mut [u64])
    requires { Right s.now × Stands s.now 8 sources × HasRows t.old 64 }
    ensures { Adds t.old t.new (Source (execution_of s.now)) }
{
    for i in 0..sources.count {
        rows::link(t, source_of(s, sources, i), reader_of(s, sources, i));
    }
}

// The events with a source.
pub fn sourced(s: &[u8], sources: Part) -> Set
    requires { Right s.now × Stands s.now 8 sources }
    ensures { Is result (Sourced (execution_of s.now)) }
{
    let mut r = Set::none();
    for i in 0..sources.count {
        r = r | Set::one(reader_of(s, sources, i));
    }
    r
}
