// Little-endian numbers at a place of the record.
ghost use Rattle.std.specs.Prelude.{◌≡◌, ◌+◌, ◌≤◌, ◌<◌, length};
ghost use Rattle.form.specs.Bytes.{num};

// The byte at `at`, or 0 past the end.
#[tactic(auto, unfolding(crate::specs::Bytes::num))]
pub fn byte(s: &[u8], at: usize) -> usize
    ensures { (result ≡ num 1 s.now at) × (result < 256) }
{
    if at < s.len() { s[at] as usize } else { 0 }
}

// The number of the one byte at `at`. One function for each size: `num` goes byte by byte, and the sizes are composed instead.
#[tactic(auto, unfolding(crate::specs::Bytes::num))]
pub fn num1(s: &[u8], at: usize) -> usize
    requires { at + 1 ≤ length s.now }
    ensures { (result ≡ num 1 s.now at) × (result < 256) }
{
    s[at] as usize
}

// The number of the two bytes from `at`, the lower first.
#[tactic(auto, unfolding(crate::specs::Bytes::num))]
pub fn num2(s: &[u8], at: usize) -> usize
    requires { at + 2 ≤ length s.now }
    ensures { (result ≡ num 2 s.now at) × (result < 65536) }
{
    num1(s, at) + 256 * num1(s, at + 1)
}

// The number of the four bytes from `at`, the lowest first.
#[tactic(auto, unfolding(crate::specs::Bytes::num))]
pub fn num4(s: &[u8], at: usize) -> usize
    requires { at + 4 ≤ length s.now }
    ensures { (result ≡ num 4 s.now at) × (result < 4294967296) }
{
    num2(s, at) + 65536 * num2(s, at + 2)
}

// The two-byte number at `at`, whose bytes past the end count as 0.
#[tactic(auto, unfolding(crate::specs::Bytes::num))]
pub fn count_at(s: &[u8], at: usize) -> usize
    requires { at < 4294967296 }
    ensures { (result ≡ num 2 s.now at) × (result < 65536) }
{
    byte(s, at) + 256 * byte(s, at + 1)
}
