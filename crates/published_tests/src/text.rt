// Lines of words that are parted by one space, for any bytes.
ghost use Rattle.std.specs.Prelude.{◌<◌, ◌^◌, length};
ghost use Rattle.std.specs.Iterator.{at_most};

// A line, as all the text from its first byte on, and the text behind it.
#[derive(Clone, Copy)]
pub struct Line<'a> {
    pub text: &'a [u8],
    pub rest: &'a [u8],
}

impl<'a> Line<'a> {
    // Its first letter; of an empty line that is the newline behind it.
    pub fn letter(self) -> Option<u8> {
        self.text.first().copied()
    }

    // Whether that is its first letter.
    pub fn begins_with(self, letter: u8) -> bool {
        self.letter() == Some(letter)
    }

    // The k-th word, the first being 0. A word that the line lacks is one of the lines behind it; nothing where there are none.
    pub fn word(self, k: usize) -> &'a [u8] {
        let mut words = self.text.split(|b| *b == b' ' || *b == b'\n');
        words.nth(k).unwrap_or(&[])
    }

    // The numbers that the words behind the first begin with, each as many digits as there are; 0 of a word that is not there.
    pub fn numbers<const N: usize>(self) -> [u32; N]
        requires { N < 2 ^ 60 }
    {
        let words = self.text.split(|b| *b == b' ' || *b == b'\n').skip(1);
        let mut numbers = [0; N];
        for (place, word) in numbers.iter_mut().zip(words) {
            *place = number(word);
        }
        numbers
    }
}

// The number that a word begins with.
fn number(word: &[u8]) -> u32 {
    let digits = word.iter().map_while(|b| char::from(*b).to_digit(10));
    digits.fold(0, |v, d| (v % 100000000 * 10).wrapping_add(d))
}

// The lines of a text.
#[derive(Clone, Copy)]
pub struct Lines<'a>(pub &'a [u8]);

impl<'a> Iterator for Lines<'a> {
    type Item = Line<'a>;

    ghost remaining = { λ s. at_most (length s.0.now) };

    fn next(&mut self) -> Option<Line<'a>> {
        if self.0.is_empty() {
            return None;
        }
        let text = self.0;
        let end = text.iter().position(|b| *b == b'\n');
        let rest = &text[end.map_or(text.len(), |end| end + 1)..];
        self.0 = rest;
        Some(Line { text, rest })
    }
}
