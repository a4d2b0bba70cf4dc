// Cycles of the relation in the first n rows of a table.
// Promises: whether there is a cycle, in one cheap pass; the cycle that is shown, written into a lent part; who reaches whom.
#![tactic(auto)]

ghost use Rattle.std.specs.Prelude.{◌≡◌, ℕ, ◌≤◌, ◌<◌, length};
ghost use Rattle.order.specs.Decides.{Decides};
ghost use Rattle.order.specs.Relation.{Cyclic, Chain};
ghost use Rattle.rows.specs.Members.{In, Is, Member};
ghost use Rattle.rows.specs.Table.{HasRow, HasRows, Adds, rel, on};
ghost use Rattle.cycles.specs.Search.{Left, among, From, Into, Away, Distance, Shortest, Levels, Round};
ghost use Rattle.cycles.specs.Showing.{Showing, Exhibited};

use rows::Set;

// What is left of a set when events with no step into what is left are taken away: one path, depth first, that goes back where it
// cannot go on. It goes to the greatest event that it can, since events mostly happen before later numbered ones. Each event that it
// goes to keeps the event that it came from; its start has none. A step to an event on the path closes a cycle, and the rest is not
// looked at.
fn dig(t: &[u64], all: Set) -> Set
    requires { (a : ℕ) → In all a → HasRow t.now a }
    ensures { Left (among t.now all) result × ((a : ℕ) → In result a → In all a) }
{
    let mut live = all;
    let Some(mut start) = live.first() else {
        return live;
    };
    let mut v = start;
    let mut from: [Option<u8>; 64] = [None; 64];
    loop {
        let next = rows::row(t, v) & live;
        if let Some(w) = next.last() {
            if !rows::row(t, w).meets(live) {
                live = live.without(w);
            } else if w == start || from[w].is_some() {
                return live;
            } else {
                from[w] = Some(v as u8);
                v = w;
            }
        } else {
            // Taken out by `-`: with `without` the search takes up to two fifths more instructions.
            live = live - Set::one(v);
            if let Some(p) = from[v] {
                v = usize::from(p);
            } else if let Some(next_start) = live.first() {
                start = next_start;
                v = start;
            } else {
                return live;
            }
        }
    }
}

// What is left of the events below n.
pub fn left(t: &[u64], n: usize) -> Set
    requires { (n ≤ 64) × HasRows t.now n }
    ensures { Left (on n t.now) result }
{
    dig(t, Set::full(n))
}

// Whether there is a cycle.
pub fn cyclic(t: &[u64], n: usize) -> bool
    requires { (n ≤ 64) × HasRows t.now n }
    ensures { Decides result (Cyclic (on n t.now)) }
{
    left(t, n).any()
}

// The members of all to which a member of w has a step.
fn onward(t: &[u64], all: Set, w: Set) -> Set
    requires { ((a : ℕ) → In all a → HasRow t.now a) × ((a : ℕ) → In w a → In all a) }
    ensures { Is result (From (among t.now all) w) }
{
    let mut r = Set::none();
    for a in w {
        r = r | rows::row(t, a);
    }
    r & all
}

// How many steps lead from s through members of all back to s, if that is below the limit.
fn steps(t: &[u64], all: Set, s: usize, limit: usize) -> Option<usize>
    requires { ((a : ℕ) → In all a → HasRow t.now a) × In all s }
    ensures { Away (among t.now all) s s limit result }
{
    let mut seen = Set::none();
    let mut front = Set::one(s);
    for k in 1..limit {
        front = onward(t, all, front) - seen;
        if front.has(s) {
            return Some(k);
        }
        if !front.any() {
            return None;
        }
        seen = seen | front;
    }
    None
}

// A number of steps, and an event.
#[derive(Clone, Copy)]
pub struct Found {
    pub len: usize,
    pub at: usize,
}

// The length of the shortest cycle, and the least event on one as short. Every cycle is in live. Starts are tried from the least
// on, each through what is left when those before it are taken away, and only for a cycle shorter than the shortest so far; the first
// bound, n + 1, is longer than any.
fn shortest(t: &[u64], n: usize, live: Set) -> Found
    requires { (n ≤ 64) × HasRows t.now n × Left (on n t.now) live × Member live }
    ensures { Shortest (on n t.now) result.len result.at }
{
    let mut found = Found { len: n + 1, at: 0 };
    let mut rest = live & Set::full(n);
    while let Some(at) = rest.first() {
        if let Some(len) = steps(t, rest, at, found.len) {
            found = Found { len, at };
        }
        rest = dig(t, rest.without(at));
    }
    found
}

// The members of `from` with a step to a member of w.
fn back(t: &[u64], from: Set, w: Set) -> Set
    requires { (a : ℕ) → In from a → HasRow t.now a }
    ensures { Is result (λ a. In from a × Into (rel t.now) w a) }
{
    let mut r = Set::none();
    for a in from {
        if rows::row(t, a).meets(w) {
            r = r | Set::one(a);
        }
    }
    r
}

// Adds to row k of u, for k below len, the events below n that are k steps away from s.
fn levels(t: &[u64], n: usize, s: usize, len: usize, u: &mut [u64])
    requires { (n ≤ 64) × HasRows t.now n × (s < n) × HasRows u.old len }
    ensures { Adds u.old u.new (λ k x. (k < len) × Distance (on n t.now) k s x) }
{
    let all = Set::full(n);
    let mut seen = Set::none();
    let mut front = Set::one(s);
    for k in 0..len {
        rows::add(u, k, front);
        front = onward(t, all, front) - seen;
        seen = seen | front;
    }
}

// The events on the shortest closed walks at s, which have len steps, by the levels of s.
fn closing(t: &[u64], n: usize, u: &[u64], s: usize, len: usize) -> Set
    requires { (n ≤ 64) × HasRows t.now n × HasRows u.now len × Shortest (on n t.now) len s × Levels (on n t.now) u.now s len }
    ensures { Is result (Round (on n t.now) s len 1) }
{
    let mut r = Set::one(s);
    for k in (1..len).rev() {
        r = r | back(t, rows::row(u, k), r);
    }
    r
}

// Writes the shortest closed walk at s that goes to the least event it can, by the levels of s and the events on such walks.
fn write(t: &[u64], n: usize, u: &[u64], good: Set, s: usize, len: usize, out: &mut [u16])
    requires n_bound { (n ≤ 64) × HasRows t.now n × HasRows u.now len × Shortest (on n t.now) len s × Levels (on n t.now) u.now s len }
    requires is { Is good (Round (on n t.now) s len 1) × (len ≤ length out.old) }
    ensures { Exhibited (on n t.now) out.old out.new len }
{
    out[0] = s as u16;
    let mut v = s;
    for i in 1..len {
        let next = rows::row(t, v) & (rows::row(u, i) & good);
        v = next.first().unwrap();
        out[i] = v as u16;
    }
}

// Writes the shortest closed walk at s that goes to the least event it can.
fn fill(t: &[u64], n: usize, s: usize, len: usize, out: &mut [u16])
    requires { (n ≤ 64) × HasRows t.now n × (len ≤ n) × (len ≤ length out.old) × Shortest (on n t.now) len s }
    ensures { Exhibited (on n t.now) out.old out.new len }
{
    let mut u = [0u64; 64];
    levels(t, n, s, len, &mut u);
    let good = closing(t, n, &u, s, len);
    write(t, n, &u, good, s, len, out);
}

// Writes the cycle that is shown, if there is a cycle, and returns how many entries it has.
pub fn show(t: &[u64], n: usize, out: &mut [u16]) -> Option<usize>
    requires { (n ≤ 64) × HasRows t.now n × (n ≤ length out.old) }
    ensures { Showing (on n t.now) out.old out.new result }
{
    let live = left(t, n);
    if !live.any() {
        return None;
    }
    let Found { len, at } = shortest(t, n, live);
    fill(t, n, at, len, out);
    Some(len)
}

// The events with a chain of steps to s.
pub fn reach(t: &[u64], n: usize, s: usize) -> Set
    requires { (n ≤ 64) × HasRows t.now n × (s < n) }
    ensures { Is result (λ a. Chain (on n t.now) a s) }
{
    let mut rest = Set::full(n);
    let mut found = back(t, rest, Set::one(s));
    while found.any() {
        rest = rest - found;
        found = back(t, rest, found);
    }
    Set::full(n) - rest
}
