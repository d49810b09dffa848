// A text that grows at its end, up to 2,048 bytes. The contracts cite specs/Promise.antt, over
// specs/Bytes.antt (words, numbers and values as bytes) and specs/Grown.antt (a text with more bytes).
#![tactic(auto)]

ghost use Rattle.std.specs.Prelude.{◌≡◌, ◌≤◌, ◌++◌, ◌∷◌, [], length, take};
ghost use Rattle.texts.specs.Bytes.{decimal, behind, spaced, newline};
ghost use Rattle.texts.specs.Grown.{shown};
ghost use Rattle.texts.specs.Promise.{New, Grows};

// The bytes that a text has room for.
const ROOM: usize = 2048;

// A text of at most 2,048 bytes: the first `len` bytes are the text.
// Kept: public fields, an array with a length beside it: any array and any length is taken, as before, which
// a type with an invariant would not, and texts have no heap.
#[derive(Clone, Copy)]
pub struct Text {
    pub bytes: [u8; ROOM],
    pub len: usize,
}

impl Text {
    // No text, in front of zeros.
    pub fn new() -> Text
        ensures { New result }
    {
        Text {
            bytes: [0; ROOM],
            len: 0,
        }
    }

    // The bytes of the text.
    pub fn as_bytes(&self) -> &[u8]
        ensures value { result.now ≡ shown self.now }
        ensures within { length result.now ≤ 2048 }
    {
        &self.bytes[..self.len.min(ROOM)]
    }

    // One byte more; a text that is full stays as it is.
    pub fn byte(&mut self, b: u8)
        ensures { Grows self.old (b ∷ []) self.new }
    {
        if self.len < ROOM {
            self.bytes[self.len] = b;
            self.len += 1;
        }
    }

    // The bytes of a word more.
    pub fn word(&mut self, word: &[u8])
        ensures { Grows self.old word.now self.new }
    {
        for &b in word {
            self.byte(b);
        }
    }

    // A number more, in decimal.
    pub fn number(&mut self, n: u64)
        ensures { Grows self.old (decimal n) self.new }
    {
        if 10 <= n {
            self.number(n / 10);
        }
        self.byte(b'0' + (n % 10) as u8);
    }

    // A space and a number more.
    pub fn behind(&mut self, n: u64)
        ensures { Grows self.old (behind (n ∷ [])) self.new }
    {
        self.byte(b' ');
        self.number(n);
    }

    // Values more, a space before each.
    pub fn all_behind(&mut self, values: &[u8])
        ensures { Grows self.old (behind values.now) self.new }
    {
        for &value in values {
            self.behind(u64::from(value));
        }
    }

    // Values more, with single spaces between.
    pub fn spaced(&mut self, values: &[u8])
        ensures { Grows self.old (spaced values.now) self.new }
    {
        if let Some((&first, rest)) = values.split_first() {
            self.number(u64::from(first));
            self.all_behind(rest);
        }
    }

    // The line of the first v values more: of all where there are fewer.
    // Kept: v beside the values, since a v above their number is taken too, which a slice of v values is not.
    pub fn values(&mut self, values: &[u8], v: usize)
        ensures { Grows self.old (spaced (take v values.now) ++ newline) self.new }
    {
        let count = v.min(values.len());
        self.spaced(&values[..count]);
        self.byte(b'\n');
    }
}
