// Bytes written into a lent buffer.
ghost use Rattle.std.specs.Prelude.{◌+◌, ◌≤◌, ◌<◌, length};
ghost use Rattle.form.specs.Bytes.{two_bytes};
ghost use Rattle.lent.specs.Put.{Put};

// Writes a count in two bytes.
pub fn put_count(out: &mut [u8], at: usize, n: usize)
    requires { (at + 2 ≤ length out.old) × (n < 65536) }
    ensures { Put out.old at (two_bytes n) out.new }
{
    out[at..at + 2].copy_from_slice(&(n as u16).to_le_bytes());
}

// Writes the bytes at the front.
pub fn put_front(out: &mut [u8], bytes: &[u8])
    requires { length bytes.now ≤ length out.old }
    ensures { Put out.old 0 bytes.now out.new }
{
    // Not by `copy_from_slice`: that calls memmove, which the archive would then need from outside, and a first call of it looks the
    // name up on 2,600 bytes more of stack.
    for i in 0..bytes.len() {
        out[i] = bytes[i];
    }
}
