// What a record says: its fields, read in place, and the view question.
// Promises: a field that is read is one of `execution_of`, the execution that the bytes spell; where the sections stand (`Laid`).
#![tactic(auto)]

ghost use Rattle.std.specs.Prelude.{◌≡◌};
ghost use Rattle.record.specs.View.{number_of};
ghost use Rattle.record.specs.declared.Unseen.TheVariants.{Unread};

use form::Fault;

pub mod events;
pub mod handed;
pub mod lists;
pub mod refusal;
pub mod sections;
pub mod view;

// An event's fields, as `execution_of` spells them for any bytes: the kind is a number, since a byte of a refused record may name none.
#[derive(Clone, Copy)]
pub struct Event {
    pub processor: usize,
    pub kind: usize,
    pub index: usize,
    pub place: usize,
    pub value: usize,
}

// The entries of one section: where they stand, and how many there are.
#[derive(Clone, Copy)]
pub struct Part {
    pub at: usize,
    pub count: usize,
}

// How many processors and events there are, the entries of sections 3 to 8, and where the first view stands.
#[derive(Clone, Copy)]
pub struct Layout {
    pub processors: usize,
    pub events: usize,
    pub causes: Part,
    pub locks: Part,
    pub initials: Part,
    pub stores: Part,
    pub lockorder: Part,
    pub sources: Part,
    pub views: usize,
}

// What an operation hands out: an answer, and how many entries its evidence has. The exported functions hand out both, also for 0.
#[derive(Clone, Copy)]
pub struct Verdict {
    pub answer: u16,
    pub count: usize,
}

// Why the view question is refused: the first fault that reading meets, or that the record has no such processor.
#[derive(Clone, Copy, PartialEq, Eq, Debug)]
pub enum Unseen {
    Unread(Fault),
    NoProcessor,
}

impl Unseen {
    // The number of the answer.
    pub fn answer(self) -> u16
        ensures { result ≡ number_of self }
    {
        match self {
            Unseen::Unread(fault) => fault.answer,
            Unseen::NoProcessor => 4,
        }
    }
}

impl From<Fault> for Unseen {
    ghost from_gives = { λ f u. u ≡ Unread f };

    fn from(fault: Fault) -> Unseen {
        Unseen::Unread(fault)
    }
}
