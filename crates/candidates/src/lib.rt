// The candidate witnesses of a structure: section 6 with the stores, section 7 with the locked entries and each view with the events
// that are seen, each once, in every order; section 8 with at most one source for each load, of its place and value.
// Promises how far a draft is written, in a buffer of any length that is lent, and nothing about what is counted: each function ends and
// stays within the record, for any bytes.
#![tactic(auto)]

ghost use Rattle.std.specs.Prelude.{◌≡◌, ◌<◌, ◌≤◌};
ghost use Rattle.candidates.specs.Buffer.{Same};

use crate::draft::{Draft, Part};
use crate::events::{Stores, Structure, low};
use rows::Set;

pub mod draft;
mod events;

// How many candidates were judged and how many got 0; and whether something else came up, so that nothing can be said: no value goes
// with that.
#[derive(Clone, Copy, Default)]
pub struct Tally {
    pub judged: u64,
    pub valid: u64,
    pub open: bool,
}

// Which candidates are judged: all, or view by view those that may decide.
#[derive(Clone, Copy)]
pub enum Trial {
    All,
    ByView,
}

// The value that an address has at last.
#[derive(Clone, Copy)]
pub struct Final {
    pub place: u32,
    pub value: u32,
}

// What an outcome asks for.
#[derive(Clone, Copy)]
pub struct Outcome {
    pub trial: Trial,
    pub last: Option<Final>,
}

// What the judge makes of a candidate: it gets 0, or the view of a processor is refused, or something else came up.
#[derive(Clone, Copy)]
enum Judgement {
    Valid,
    Refused(u16),
    Other,
}

// A choice of sources: the loads that take a store's value, and the store of each.
#[derive(Clone, Copy)]
struct Sources {
    loads: Set,
    stores: [u8; 64],
}

impl Sources {
    // No load takes a store's value.
    fn none() -> Sources {
        Sources {
            loads: Set::none(),
            stores: [0; 64],
        }
    }

    // The store whose value load r takes.
    fn of(&self, r: usize) -> u8 {
        self.stores[r % 64]
    }

    // The stores that are left for load r in later choices: those behind the one whose value it takes, or all where it takes none.
    fn later(&self, stores: Set, r: usize) -> Set
        requires { r < 64 }
    {
        if self.loads.has(r) {
            let behind = usize::from(self.of(r)) + 1;
            stores - Set::full(behind.min(64))
        } else {
            stores
        }
    }

    // The next choice; false after the last. Each number below 64 is a load if the record's bytes there spell one, behind the last
    // event too.
    fn choose(&mut self, structure: Structure, stores: &Stores) -> bool {
        for r in (0..64).rev() {
            let later = self.later(stores.all, r);
            if later.any()
                && let Some(content) = structure.load(low(r))
                && let Some(w) = stores.first(later, content)
            {
                self.loads = self.loads | Set::one(r);
                self.stores[r] = low(w);
                return true;
            }
            self.loads = self.loads - Set::one(r);
        }
        false
    }
}

// Judges a candidate.
fn judge(record: &[u8]) -> Judgement {
    let mut evidence = [0; 65];
    match judge::check::check(record, &mut evidence).answer {
        0 => Judgement::Valid,
        24..=27 => Judgement::Refused(evidence[0]),
        _ => Judgement::Other,
    }
}

impl Tally {
    // Counts one more candidate.
    fn count(&mut self, judgement: Judgement) {
        self.judged = self.judged.wrapping_add(1);
        match judgement {
            Judgement::Valid => self.valid = self.valid.wrapping_add(1),
            Judgement::Refused(_) => {}
            Judgement::Other => self.open = true,
        }
    }

    // Takes one turn after another until one is the last; after 500,000 turns nothing can be said.
    fn take_turns<F: FnMut(&mut Tally) -> bool>(&mut self, mut turn: F)
        requires { F.IsAlwaysCallable turn }
    {
        for _ in 0..500000 {
            if !turn(self) {
                return;
            }
        }
        self.open = true;
    }
}

// What the candidates of a structure have in common: its stores, with each event that is said to be of processor 255, how many locked
// instructions it has, how many processors, and what each of these sees.
#[derive(Clone, Copy)]
struct Common {
    stores: Set,
    locks: u8,
    processors: u8,
    seen: [Set; 4],
    ghost few: { processors ≤ 4 },
}

impl Common {
    // What the candidates of this structure have in common. A processor that there is not sees the stores.
    fn of(structure: Structure) -> Common {
        Common {
            stores: structure.seen(u8::MAX),
            locks: structure.locks(),
            processors: structure.processors(),
            seen: [0, 1, 2, 3].map(|p| structure.seen(p)),
        }
    }
}

// A candidate: its draft, in which sections 6 and 9 begin at `six` and `nine`, and the lists in that which are arranged; `fresh` says that
// section 9 stands, each view at its first arrangement. The next candidate is written over it, and leaves what stands behind.
#[derive(Drop)]
struct Candidate<'a> {
    common: Common,
    draft: Draft<'a>,
    six: usize,
    nine: usize,
    orders: [Part; 2],
    views: [Part; 4],
    fresh: bool,
}

impl<'a> Candidate<'a> {
    // Sections 0 to 5.
    fn new(sections: Draft<'a>) -> Candidate<'a>
        ensures { Same sections.entry.bytes result.draft.bytes }
    {
        let six = sections.len();
        Candidate {
            common: Common::of(Structure::new(sections.all())),
            draft: sections,
            six,
            nine: six,
            orders: [Part::default(); 2],
            views: [Part::default(); 4],
            fresh: false,
        }
    }

    // The structure, as it stands in the buffer now.
    fn structure(&self) -> Structure<'_> {
        Structure::new(self.draft.all())
    }

    // Writes events, ascending.
    fn write_events(&mut self, events: Set) -> Part {
        self.draft.write_list(events.into_iter().map(|e| [low(e)]))
    }

    // Sections 6 to 8, the lists at their first arrangements.
    fn place_orders(&mut self, sources: &Sources) {
        self.draft.truncate(self.six);
        let stores = self.write_events(self.common.stores);
        let locks = self.draft.write_list((0..self.common.locks).map(|i| [i]));
        let loads = sources.loads.into_iter();
        self.draft
            .write_list(loads.map(|r| [sources.of(r), low(r)]));
        self.nine = self.draft.len();
        self.orders = [stores, locks];
        self.fresh = false;
    }

    // Section 9, each view at its first arrangement; where it stands so already, nothing is done: most orders end in another value, and no
    // view is tried with them.
    fn place_views(&mut self) {
        if self.fresh {
            return;
        }
        let common = self.common;
        self.draft.truncate(self.nine);
        self.draft
            .write(&u16::from(common.processors).to_le_bytes());
        for p in 0..usize::from(common.processors) {
            self.views[p] = self.write_events(common.seen[p]);
        }
        self.fresh = true;
    }

    // Whether the last store in section 6 to the address that the outcome names has the value that it names. What is not written of an
    // event counts as 0.
    fn ends_with(&self, last: Final) -> bool {
        let structure = Structure::new(self.draft.front(self.six));
        let [stores, _] = self.orders;
        self.draft
            .part(stores)
            .iter()
            .rev()
            .find(|e| structure.place(**e) == last.place)
            .is_some_and(|e| structure.value(*e) == last.value)
    }

    // Judges every arrangement of the views.
    fn try_all(&mut self, tally: &mut Tally) {
        let all = self.views;
        let views = &all[..usize::from(self.common.processors)];
        tally.take_turns(|tally| {
            tally.count(judge(self.draft.as_slice()));
            self.draft.turn_all(views)
        });
    }

    // Judges view by view: where a processor's view is refused, that view alone goes to its next arrangement. Ends where all views
    // stand, or where a processor has no view left.
    fn try_views(&mut self, tally: &mut Tally) {
        tally.take_turns(|tally| {
            let judgement = judge(self.draft.as_slice());
            tally.count(judgement);
            match judgement {
                Judgement::Refused(p) if !tally.open => match self.views.get(usize::from(p)) {
                    Some(view) => self.draft.turn(*view),
                    None => false,
                },
                _ => false,
            }
        });
    }

    // Tries the views with sections 6 and 7 as they are arranged.
    fn try_order(&mut self, outcome: Outcome, tally: &mut Tally) {
        self.place_views();
        if outcome.last.is_some_and(|last| !self.ends_with(last)) {
            return;
        }
        self.fresh = false;
        match outcome.trial {
            Trial::All => self.try_all(tally),
            Trial::ByView => self.try_views(tally),
        }
    }

    // Tries every arrangement of sections 6 and 7.
    fn try_orders(&mut self, outcome: Outcome, tally: &mut Tally) {
        tally.take_turns(|tally| {
            self.try_order(outcome, tally);
            self.draft.turn_all(&self.orders)
        });
    }
}

// Tries the candidates of the structure whose sections 0 to 5 are written, and adds them up. They are written behind these, as far as
// there is room, and then count as taken back. Where the events, or their count, are not written whole, they are written over, and the
// stores are found anew for each choice of sources.
pub fn run(sections: &mut Draft, outcome: Outcome, tally: &mut Tally)
    ensures len { sections.new.len ≡ sections.old.len }
    ensures buffer { Same sections.old.bytes sections.new.bytes }
{
    let len = sections.len;
    let structure = Structure::new(sections.all());
    let whole = structure.is_within(len);
    let mut stores = Stores::of(structure);
    let mut candidate = Candidate::new(Draft::with_len(sections.bytes, sections.len));
    let mut sources = Sources::none();
    tally.take_turns(|tally| {
        candidate.place_orders(&sources);
        candidate.try_orders(outcome, tally);
        let structure = candidate.structure();
        if !whole {
            stores.renew(structure);
        }
        sources.choose(structure, &stores)
    });
}
