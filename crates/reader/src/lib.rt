// The service display's way into a record: a reader opened once over the lent bytes, and the entries of sections 2 to 9 one by one.
// Promises: for every byte string and every place the first entry at or after it, by the definition `item_at`; opening gives the
// record itself, or the first fault that reading finds, whose number is the answer.
#![tactic(auto)]

ghost use Rattle.std.specs.Prelude.{◌≡◌, ℕ, ◌+◌, ◌*◌, ◌≤◌, ◌<◌, MatchResult};
ghost use Rattle.form.specs.Place.{start};
ghost use Rattle.reader.specs.Entries.{view_from, item_at, Opened, Refused};

use form::Fault;
use form::bytes::{byte, count_at};
use form::entry::width;
use form::whole::whole;

// An entry: its section, place and length. A view is one entry, its count included.
#[derive(Clone, Copy, PartialEq, Eq, Debug)]
pub struct Entry {
    pub section: u16,
    pub at: usize,
    pub len: usize,
}

// The lent bytes, and the place from which the next entry is looked for.
#[derive(Clone, Copy)]
pub struct Reader<'a> {
    pub src: &'a [u8],
    pub at: usize,
}

// Among entries of `len` bytes that stand one after the other from `base` on, the number of the first at or after `at`.
fn number_from(at: usize, base: usize, len: usize) -> usize
    requires { 0 < len }
    ensures reached { at ≤ base + result * len }
    ensures before { (j : ℕ) → j < result → base + j * len < at }
{
    at.saturating_sub(base).div_ceil(len)
}

// The first view at or after `at`, where section 9 starts at `first`: there is one for each processor, whatever the section's own
// count says.
fn view_from(s: &[u8], at: usize, first: usize) -> Option<Entry>
    requires { (first ≡ start s.now 9) × (first ≤ 9 * 786422) }
    ensures { result ≡ view_from s.now at }
{
    let mut view = first + 2;
    for _ in 0..byte(s, 1) {
        let len = 2 + count_at(s, view);
        if at <= view {
            return Some(Entry {
                section: 9,
                at: view,
                len,
            });
        }
        view += len;
    }
    None
}

// The first entry at or after `at`, for any byte string. A section that ends at or before `at` is passed by its count alone.
#[tactic(auto, using(crate::proofs::Spaced::entries_small, crate::proofs::Spaced::width_pos))]
pub fn item_at(s: &[u8], at: usize) -> Option<Entry>
    ensures { result ≡ item_at s.now at }
{
    let mut first: usize = 2;
    for k in 2..9 {
        let count = count_at(s, first);
        let len = width(k);
        let end = first + 2 + count * len;
        if at < end {
            let i = number_from(at, first + 2, len);
            if i < count {
                return Some(Entry {
                    section: k,
                    at: first + 2 + i * len,
                    len,
                });
            }
        }
        first = end;
    }
    view_from(s, at, first)
}

// What a reader may be opened over: the record itself, or why reading refuses it.
#[tactic(auto, unfolding(crate::specs::Entries::open_answer, crate::specs::Entries::open_part))]
pub fn opened(s: &[u8]) -> Result<&[u8], Fault>
    ensures { MatchResult result (Opened s.entry) (Refused s.now) }
{
    whole(s)?;
    Ok(s)
}

impl<'a> Reader<'a> {
    // A reader at the first byte.
    pub fn new(src: &'a [u8]) -> Reader<'a>
        ensures { (result.src ≡ src.entry) × (result.at ≡ 0) }
    {
        Reader { src, at: 0 }
    }

    // Opened once: a reader at the first byte of what `opened` hands on, or why reading refuses the record.
    pub fn open(s: &'a [u8]) -> Result<Reader<'a>, Fault>
        ensures { MatchResult result (λ reader. Opened s.entry reader.src × (reader.at ≡ 0)) (Refused s.now) }
    {
        Ok(Reader::new(opened(s)?))
    }

    // The next entry. The reader stays, so it is no iterator: whoever goes on moves it past the entry's last byte.
    pub fn next(self) -> Option<Entry>
        ensures { result ≡ item_at self.entry.src.now self.entry.at }
    {
        item_at(self.src, self.at)
    }

    // The reader at another place of the same bytes.
    pub fn moved(self, at: usize) -> Reader<'a>
        ensures { (result.src ≡ self.entry.src) × (result.at ≡ at) }
    {
        Reader { at, ..self }
    }
}
