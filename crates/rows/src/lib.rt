// Sets of events below 64, and relations as rows of such sets, one for each event: leaves, each a shift or a mask or two.
// Promises: what each makes of the members of sets and of the pairs of relations. No crate above looks into a word.
#![tactic(auto)]

ghost use Rattle.std.specs.Prelude.{◌≡◌, ℕ, ◌⊎◌, ◌<◌, ◌≤◌, ◌++◌, ◌%◌, ◌^◌, take, drop, MatchOption};
ghost use Rattle.std.specs.Iterator.{at_most};
ghost use Rattle.order.specs.Decides.{Decides};
ghost use Rattle.order.specs.Least.{Least, Found, Counted};
ghost use Rattle.rows.specs.Members.{In, Is, Member, Meet, Greatest, Takes};
ghost use Rattle.rows.specs.Table.{HasRow, HasRows, rel, Adds};

use std::ops::{BitAnd, BitOr, Sub};

// A set of events below 64.
#[derive(Clone, Copy, PartialEq, Eq)]
pub struct Set {
    pub word: u64,
}

impl Set {
    // The empty set.
    pub fn none() -> Set
        ensures { Is result (λ k. ⊥) }
    {
        Set { word: 0 }
    }

    // The events below n.
    pub fn full(n: usize) -> Set
        requires { n ≤ 64 }
        ensures { Is result (λ k. k < n) }
    {
        if n == 64 {
            Set { word: u64::MAX }
        } else {
            Set {
                word: (1u64 << n) - 1,
            }
        }
    }

    // The set of k alone.
    pub fn one(k: usize) -> Set
        requires { k < 64 }
        ensures { Is result (λ j. j ≡ k) }
    {
        Set { word: 1u64 << k }
    }

    // Whether k is a member.
    pub fn has(self, k: usize) -> bool
        requires { k < 64 }
        ensures { Decides result (In self k) }
    {
        (self.word >> k) & 1 == 1
    }

    // Whether there is a member.
    pub fn any(self) -> bool
        ensures { Decides result (Member self) }
    {
        self.word != 0
    }

    // Whether the two have a member in common.
    pub fn meets(self, other: Set) -> bool
        ensures { Decides result (Meet self other) }
    {
        self.word & other.word != 0
    }

    // The members but k, which is one of them.
    pub fn without(self, k: usize) -> Set
        requires { In self k }
        ensures { Is result (λ j. In self j × (j ≡ k → ⊥)) }
    {
        Set {
            word: self.word ^ (1u64 << k),
        }
    }

    // The members but the least. One less than the word differs from it in the least member and in what stands below that alone.
    fn without_first(self) -> Set
        requires { Member self }
        ensures { (k : ℕ) → Least (In self) k → Is result (λ j. In self j × (j ≡ k → ⊥)) }
    {
        Set {
            word: self.word & (self.word - 1),
        }
    }

    // How many members there are.
    pub fn size(self) -> u32
        ensures { Counted 64 (In self) result }
    {
        self.word.count_ones()
    }

    // The least member.
    pub fn first(self) -> Option<usize>
        ensures { Found 64 (In self) result }
    {
        if self.word == 0 {
            None
        } else {
            Some(self.word.trailing_zeros() as usize)
        }
    }

    // The greatest member.
    pub fn last(self) -> Option<usize>
        ensures { MatchOption result (Member self → ⊥) (Greatest self) }
    {
        if self.word == 0 {
            None
        } else {
            Some((63 ^ self.word.leading_zeros()) as usize)
        }
    }
}

// The members of either.
impl BitOr for Set {
    type Output = Set;

    ghost bitor_gives = { λ x y r. Is r (λ k. In x k ⊎ In y k) };

    fn bitor(self, other: Set) -> Set {
        Set {
            word: self.word | other.word,
        }
    }
}

// The members of both.
impl BitAnd for Set {
    type Output = Set;

    ghost bitand_gives = { λ x y r. Is r (λ k. In x k × In y k) };

    fn bitand(self, other: Set) -> Set {
        Set {
            word: self.word & other.word,
        }
    }
}

// The members of the first that the second does not have.
impl Sub for Set {
    type Output = Set;

    ghost sub_gives = { λ x y r. Is r (λ k. In x k × (In y k → ⊥)) };

    fn sub(self, other: Set) -> Set {
        Set {
            word: self.word ^ (self.word & other.word),
        }
    }
}

// The members of a set, from the least on.
#[derive(Clone, Copy)]
pub struct Ascending {
    pub rest: Set,
}

impl Iterator for Ascending {
    type Item = usize;

    ghost next_gives = { λ s r t. Takes s.rest r t.rest };

    ghost remaining = { λ s. at_most (s.rest.word % 2 ^ 64) };

    fn next(&mut self) -> Option<usize> {
        let k = self.rest.first()?;
        self.rest = self.rest.without_first();
        Some(k)
    }
}

impl IntoIterator for Set {
    type Item = usize;

    type IntoIter = Ascending;

    ghost into_iter_gives = { λ s t. t.rest ≡ s };

    fn into_iter(self) -> Ascending {
        Ascending { rest: self }
    }
}

// Row a: the events to which a has a step.
pub fn row(t: &[u64], a: usize) -> Set
    requires { HasRow t.now a }
    ensures { Is result (rel t.now a) }
{
    Set { word: t[a] }
}

// Whether a has a step to b.
pub fn linked(t: &[u64], a: usize, b: usize) -> bool
    requires { HasRow t.now a × (b < 64) }
    ensures { Decides result (rel t.now a b) }
{
    row(t, a).has(b)
}

// Adds a step from a to each member of s.
pub fn add(t: &mut [u64], a: usize, s: Set)
    requires { HasRow t.old a }
    ensures { Adds t.old t.new (λ x y. (x ≡ a) × In s y) }
{
    t[a] = t[a] | s.word;
}

// Adds a step from a to b.
pub fn link(t: &mut [u64], a: usize, b: usize)
    requires { HasRow t.old a × (b < 64) }
    ensures { Adds t.old t.new (λ x y. (x ≡ a) × (y ≡ b)) }
{
    add(t, a, Set::one(b));
}

// Adds the steps of the first n rows of s.
pub fn join(t: &mut [u64], s: &[u64], n: usize)
    requires { HasRows t.old n × HasRows s.now n }
    ensures { Adds t.old t.new (λ x y. (x < n) × rel s.now x y) }
{
    for a in 0..n {
        add(t, a, row(s, a));
    }
}

// Adds a step from each member of x to each member of y.
pub fn spread(t: &mut [u64], x: Set, y: Set)
    requires { HasRows t.old 64 }
    ensures { Adds t.old t.new (λ a b. In x a × In y b) }
{
    for a in x {
        add(t, a, y);
    }
}

// Replaces the first n rows by those of s.
pub fn copy(t: &mut [u64], s: &[u64], n: usize)
    requires { HasRows t.old n × HasRows s.now n }
    ensures { t.new ≡ take n s.now ++ drop n t.old }
{
    t[..n].copy_from_slice(&s[..n]);
}
