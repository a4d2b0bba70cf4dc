// A record that is being written into a lent buffer of any length: bytes, one behind the other as far as there is room.
ghost use Rattle.std.specs.Prelude.{◌≡◌, ◌+◌, ◌<◌, ◌≤◌, ◌^◌, min, length};
ghost use Rattle.std.specs.Iterator.{IsFinite};
ghost use Rattle.candidates.specs.Buffer.{Same};

// The bytes from `from` to before `to`.
#[derive(Clone, Copy, Default)]
pub struct Part {
    from: usize,
    to: usize,
}

// What has been written stands in the first `len` bytes of the buffer. Behind it stands what was taken back or what stood there before.
#[derive(Drop)]
pub struct Draft<'a> {
    pub(crate) bytes: &'a mut [u8],
    pub(crate) len: usize,
    ghost within: { len ≤ length bytes.now },
}

impl<'a> Draft<'a> {
    // Nothing is written yet.
    pub fn new(bytes: &'a mut [u8]) -> Draft<'a>
        ensures len { result.len ≡ 0 }
        ensures buffer { Same bytes.entry result.bytes }
    {
        Draft::with_len(bytes, 0)
    }

    // The first `len` bytes are written, or all where there are fewer.
    pub fn with_len(bytes: &'a mut [u8], len: usize) -> Draft<'a>
        ensures len { result.len ≡ min len (length bytes.old) }
        ensures buffer { Same bytes.entry result.bytes }
    {
        let len = len.min(bytes.len());
        Draft { bytes, len }
    }

    // How many bytes have been written.
    pub fn len(&self) -> usize
        ensures { result ≡ self.now.len }
    {
        self.len
    }

    // What has been written.
    pub(crate) fn as_slice(&self) -> &[u8] {
        &self.bytes[..self.len]
    }

    // The whole buffer.
    pub(crate) fn all(&self) -> &[u8] {
        self.bytes
    }

    // The first `len` bytes of the buffer, or all where there are fewer.
    pub(crate) fn front(&self, len: usize) -> &[u8] {
        &self.bytes[..len.min(self.bytes.len())]
    }

    // Takes back what has been written behind the first `len` bytes.
    pub(crate) fn truncate(&mut self, len: usize) {
        self.len = self.len.min(len);
    }

    // Writes a byte at a place, and says where the next one goes; a byte is lost for which there is no room.
    fn put(&mut self, at: usize, byte: u8) -> usize
        requires { at ≤ length self.old.bytes.now }
        ensures next { result ≡ min (length self.old.bytes.now) (at + 1) }
        ensures len { self.new.len ≡ self.old.len }
        ensures buffer { Same self.old.bytes self.new.bytes }
    {
        match self.bytes.get_mut(at) {
            Some(place) => {
                *place = byte;
                at + 1
            }
            None => at,
        }
    }

    // Writes bytes; those are lost for which there is no room.
    pub fn write(&mut self, bytes: &[u8])
        ensures len { self.new.len ≡ min (length self.old.bytes.now) (self.old.len + length bytes.now) }
        ensures buffer { Same self.old.bytes self.new.bytes }
    {
        let mut end = self.len;
        for byte in bytes {
            end = self.put(end, *byte);
        }
        self.len = end;
    }

    // Writes how many items there are, whether or not there is room for them, and the items; they stand in the part that is handed
    // back.
    pub fn write_list<const N: usize, I: Iterator<Item = [u8; N]> + Drop>(
        &mut self,
        items: I,
    ) -> Part
        requires small { N < 2 ^ 63 }
        requires can { I.can_next items }
        requires ends { IsFinite (I.remaining items) }
        ensures len { min (length self.old.bytes.now) (self.old.len + 2) ≤ self.new.len }
        ensures buffer { Same self.old.bytes self.new.bytes }
    {
        let start = self.len;
        self.write(&[0, 0]);
        let from = self.len;
        let mut to = from;
        let mut count: u16 = 0;
        for item in items {
            for byte in &item {
                to = self.put(to, *byte);
            }
            count = count.wrapping_add(1);
        }
        self.len = start;
        self.write(&count.to_le_bytes());
        self.len = to;
        Part { from, to }
    }

    // Takes the numbers of a part to their next arrangement; false where they go back to their first.
    pub(crate) fn turn(&mut self, part: Part) -> bool {
        if part.from <= part.to && part.to <= self.bytes.len() {
            return arrangements::next(&mut self.bytes[part.from..part.to]);
        }
        false
    }

    // The same for several parts, the last of them going first.
    pub(crate) fn turn_all(&mut self, parts: &[Part]) -> bool {
        for part in parts.iter().rev() {
            if self.turn(*part) {
                return true;
            }
        }
        false
    }

    // The bytes of a part; none where it is not within the buffer.
    pub(crate) fn part(&self, part: Part) -> &[u8] {
        self.bytes.get(part.from..part.to).unwrap_or(&[])
    }
}
