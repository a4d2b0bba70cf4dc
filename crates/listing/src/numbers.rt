// Words and numbers as text, each written at a place; where it ends is handed back.
ghost use Rattle.std.specs.Prelude.{◌+◌, ◌*◌, ◌≤◌, ◌<◌, ◌∷◌, length};
ghost use Rattle.lent.specs.Put.{PutTo};
ghost use Rattle.listing.specs.Text.{digit_at, decimal, spaced};

// The bytes of a word.
pub fn put_word(out: &mut [u8], at: usize, word: &[u8]) -> usize
    requires { at + length word.now ≤ length out.old }
    ensures { PutTo out.old at word.now out.new result }
{
    let end = at + word.len();
    out[at..end].copy_from_slice(word);
    end
}

// The digit of x at the power p of ten, if x reaches it.
fn put_digit(out: &mut [u8], at: usize, p: usize, x: usize) -> usize
    requires { (0 < p) × (at + 1 ≤ length out.old) }
    ensures { PutTo out.old at (digit_at p x) out.new result }
{
    if x < p {
        return at;
    }
    out[at] = b'0' + (x / p % 10) as u8;
    at + 1
}

// A space, and x in decimal.
pub fn put_number(out: &mut [u8], at: usize, x: usize) -> usize
    requires { at + 6 ≤ length out.old }
    ensures { PutTo out.old at (32 ∷ decimal x) out.new result }
{
    out[at] = b' ';
    let mut to = at + 1;
    for p in [10000, 1000, 100, 10] {
        to = put_digit(out, to, p, x);
    }
    out[to] = b'0' + (x % 10) as u8;
    to + 1
}

// The numbers, each after a space.
pub fn put_numbers(out: &mut [u8], at: usize, list: &[u16]) -> usize
    requires { at + 6 * length list.now ≤ length out.old }
    ensures { PutTo out.old at (spaced list.now) out.new result }
{
    let mut to = at;
    for x in list {
        to = put_number(out, to, *x as usize);
    }
    to
}
