// The judge for programs in C and Rust: the five operations and the reader under their exported names. A slice is a pointer and a
// length, the pointer never null; a second result goes out through a reference. include/reefmitten.h says what each promises.
// Promises: what the operations below promise, for every byte string and every lent buffer.
#![tactic(auto)]

ghost use Rattle.std.specs.Prelude.{◌≡◌, length};
ghost use Rattle.record.specs.View.{view_answer, part_from, part_count};
ghost use Rattle.judge.specs.Checked.{Checked};
ghost use Rattle.table.specs.Tabled.{Tabled};
ghost use Rattle.replay.specs.Replayed.{Replayed};
ghost use Rattle.readoff.specs.Written.{ReadOff};
ghost use Rattle.reader.specs.Entries.{item_at, open_answer, open_part};
ghost use Rattle.reefmitten.specs.Entry.{section_of, place_of, length_of};

// The check.
#[unsafe(no_mangle)]
pub extern "C" fn reefmitten_check(s: &[u8], evidence: &mut [u16], written: &mut usize) -> u16
    ensures { Checked s.now evidence.old evidence.new result written.new }
{
    let checked = judge::check::check(s, evidence);
    *written = checked.count;
    checked.answer
}

// The replay of a list.
#[unsafe(no_mangle)]
pub extern "C" fn reefmitten_replay(
    s: &[u8],
    list: &[u16],
    evidence: &mut [u16],
    written: &mut usize,
) -> u16
    ensures { Replayed s.now list.now evidence.old evidence.new result written.new }
{
    let replayed = replay::replay::replay(s, list, evidence);
    *written = replayed.count;
    replayed.answer
}

// The read-off of a list.
#[unsafe(no_mangle)]
pub extern "C" fn reefmitten_read_off(
    s: &[u8],
    list: &[u16],
    out: &mut [u8],
    written: &mut usize,
) -> u16
    ensures { ReadOff s.now list.now out.old out.new result written.new }
{
    let written_off = readoff::read_off::read_off(s, list, out);
    *written = written_off.count;
    written_off.answer
}

// The order table.
#[unsafe(no_mangle)]
pub extern "C" fn reefmitten_order_table(s: &[u8], table: &mut [u64]) -> u16
    ensures { Tabled s.now table.old table.new result }
{
    table::order_table(s, table)
}

// The view question: where the view's event numbers stand in the record, and how many there are; both 0 on a refusal.
#[unsafe(no_mangle)]
pub extern "C" fn reefmitten_view(
    s: &[u8],
    processor: u8,
    start: &mut usize,
    length: &mut usize,
) -> u16
    ensures answer { result ≡ view_answer s.now processor }
    ensures place { start.new ≡ part_from s.now processor }
    ensures count { length.new ≡ part_count s.now processor }
{
    match record::view::find(s, u16::from(processor)) {
        Ok(view) => {
            *start = view.at;
            *length = view.count;
            0
        }
        Err(refusal) => {
            *start = 0;
            *length = 0;
            refusal.answer()
        }
    }
}

// Opens a reader: the answer of reading, and how many bytes the reader goes over: all, or none on a refusal.
#[unsafe(no_mangle)]
pub extern "C" fn reefmitten_open(s: &[u8], bytes: &mut usize) -> u16
    ensures answer { result ≡ open_answer s.now }
    ensures bytes { bytes.new ≡ length (open_part s.now) }
{
    match reader::opened(s) {
        Ok(part) => {
            *bytes = part.len();
            0
        }
        Err(fault) => {
            *bytes = 0;
            fault.answer
        }
    }
}

// The first entry at or after a place: its section, or 0 where there is none; its place and length, both 0 where there is none.
#[unsafe(no_mangle)]
pub extern "C" fn reefmitten_next(s: &[u8], at: usize, start: &mut usize, length: &mut usize) -> u16
    ensures section { result ≡ section_of (item_at s.now at) }
    ensures place { start.new ≡ place_of (item_at s.now at) }
    ensures length { length.new ≡ length_of (item_at s.now at) }
{
    match reader::item_at(s, at) {
        Some(entry) => {
            *start = entry.at;
            *length = entry.len;
            entry.section
        }
        None => {
            *start = 0;
            *length = 0;
            0
        }
    }
}
