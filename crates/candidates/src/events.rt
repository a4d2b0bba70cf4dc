// A structure, as sections 0 to 5 of a record give it. A byte past the record's end counts as 0.
ghost use Rattle.std.specs.Prelude.{◌≤◌};

use form::bytes::{byte, count_at};
use form::place::start;
use rows::Set;

// What an event is: neither only where bytes behind the last event are read as one.
#[derive(Clone, Copy)]
pub enum Kind {
    Load,
    Store,
    Neither,
}

// A number below 64 in a byte.
pub fn low(number: usize) -> u8 {
    (number % 64) as u8
}

// The record that a structure stands in.
#[derive(Clone, Copy)]
pub struct Structure<'a> {
    bytes: &'a [u8],
}

impl<'a> Structure<'a> {
    // The structure in these bytes.
    pub fn new(bytes: &'a [u8]) -> Structure<'a> {
        Structure { bytes }
    }

    // How many processors there are, at most 4.
    pub fn processors(self) -> u8
        ensures { result ≤ 4 }
    {
        byte(self.bytes, 1).min(4) as u8
    }

    // How many events there are, at most 64.
    fn events(self) -> u8
        ensures { result ≤ 64 }
    {
        count_at(self.bytes, 2).min(64) as u8
    }

    // Whether its events, as far as there is room for them, stand in the first `len` bytes.
    pub fn is_within(self, len: usize) -> bool {
        let end = 4 + 12 * usize::from(self.events());
        end.min(self.bytes.len()) <= len
    }

    // How many locked instructions there are, at most 16.
    pub fn locks(self) -> u8 {
        count_at(self.bytes, start(self.bytes, 4)).min(16) as u8
    }

    // Byte k of event e.
    fn event_byte(self, e: u8, k: u8) -> u8 {
        let at = 4 + 12 * usize::from(e) + usize::from(k);
        self.bytes.get(at).copied().unwrap_or(0)
    }

    // What event e is. Here and below: behind the last event it is what the bytes there spell.
    fn kind(self, e: u8) -> Kind {
        match self.event_byte(e, 1) {
            0 => Kind::Load,
            1 => Kind::Store,
            _ => Kind::Neither,
        }
    }

    // The last eight bytes of event e: its address and its value.
    fn content(self, e: u8) -> [u8; 8] {
        let at = 8 + 12 * usize::from(e);
        let bytes = self.bytes.get(at..).unwrap_or(&[]);
        if let Some(content) = bytes.first_chunk() {
            return *content;
        }
        let mut content = [0; 8];
        for (place, byte) in content.iter_mut().zip(bytes) {
            *place = *byte;
        }
        content
    }

    // The events that are wanted.
    fn those<F: Fn(u8) -> bool>(self, wanted: F) -> Set
        requires { F.IsAlwaysCallable wanted }
    {
        let mut those = Set::none();
        for e in 0..self.events() {
            if wanted(e) {
                those = those | Set::one(usize::from(e));
            }
        }
        those
    }

    // The events that processor p sees.
    pub fn seen(self, p: u8) -> Set {
        self.those(|e| self.sees(p, e))
    }

    // The address of event e.
    pub fn place(self, e: u8) -> u32 {
        let [a0, a1, a2, a3, ..] = self.content(e);
        u32::from_le_bytes([a0, a1, a2, a3])
    }

    // The value of event e.
    pub fn value(self, e: u8) -> u32 {
        let [.., v0, v1, v2, v3] = self.content(e);
        u32::from_le_bytes([v0, v1, v2, v3])
    }

    // Whether processor p sees event e. A processor that there is not sees the stores.
    fn sees(self, p: u8, e: u8) -> bool {
        matches!(self.kind(e), Kind::Store) || self.event_byte(e, 0) == p
    }

    // The address and the value of event e, if it is a load.
    pub fn load(self, e: u8) -> Option<[u8; 8]> {
        match self.kind(e) {
            Kind::Load => Some(self.content(e)),
            _ => None,
        }
    }
}

// The stores of a structure, and the address and the value of each.
#[derive(Clone, Copy)]
pub struct Stores {
    pub all: Set,
    contents: [[u8; 8]; 64],
}

impl Stores {
    // The stores of this structure.
    pub fn of(structure: Structure) -> Stores {
        let all = structure.those(|e| matches!(structure.kind(e), Kind::Store));
        let mut contents = [[0; 8]; 64];
        for w in all {
            contents[w % 64] = structure.content(low(w));
        }
        Stores { all, contents }
    }

    // The stores of this structure in place of those. Cold: only of a draft that is cut.
    #[cold]
    pub fn renew(&mut self, structure: Structure) {
        *self = Stores::of(structure);
    }

    // The first of some of them that has this address and value.
    pub fn first(&self, some: Set, content: [u8; 8]) -> Option<usize> {
        some.into_iter().find(|w| self.contents[*w % 64] == content)
    }
}
