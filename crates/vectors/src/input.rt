// Numbers from the input, the lower byte first. Bytes past its end count as 0.
ghost use Rattle.std.specs.Prelude.{◌<◌};

use printing::read_full;
use std::io::Read;

// The next byte.
pub fn byte(input: &mut impl Read) -> u8 {
    let mut one = [0u8; 1];
    read_full(input, &mut one);
    one[0]
}

// The next two bytes.
pub fn short(input: &mut impl Read) -> u16 {
    let mut two = [0u8; 2];
    read_full(input, &mut two);
    u16::from_le_bytes(two)
}

// The next two bytes, as a length or a place.
pub fn number(input: &mut impl Read) -> usize
    ensures { result < 65536 }
{
    usize::from(short(input))
}

// The next eight bytes, two at a time.
fn word(input: &mut impl Read) -> u64 {
    let mut eight = [0u8; 8];
    for two in eight.chunks_exact_mut(2) {
        read_full(input, two);
    }
    u64::from_le_bytes(eight)
}

// The next answer; 64 stands for none.
pub fn answer(input: &mut impl Read) -> Option<u16> {
    let a = short(input);
    if a == 64 { None } else { Some(a) }
}

// The next k numbers of two bytes each, in the first entries of the buffer; none if they are more than it has room for.
pub fn shorts<'a>(input: &mut impl Read, buffer: &'a mut [u16], k: usize) -> Option<&'a [u16]> {
    for x in buffer.iter_mut().take(k) {
        *x = short(input);
    }
    buffer.get(..k)
}

// The next k words, into the first k entries.
pub fn words(input: &mut impl Read, out: &mut [u64], k: usize) {
    for x in out.iter_mut().take(k) {
        *x = word(input);
    }
}

// The next k bytes, into the first k entries; none if they are more.
pub fn bytes(input: &mut impl Read, out: &mut [u8], k: usize) {
    if let Some(part) = out.get_mut(..k) {
        read_full(input, part);
    }
}
