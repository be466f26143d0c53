// Text put into a lent buffer. A byte past the buffer's end is counted and not written.
// `as` stands where std has no `From`: a `usize` from a `u32`, or a number that is proved to fit the smaller type.
ghost use Rattle.std.specs.Prelude.{[], ◌∷◌, ◌+◌, ◌<◌, ◌≤◌, ◌≡◌, length};
ghost use Rattle.numerals.specs.Decimal.{decimal, number_then};
ghost use Rattle.numerals.specs.Texts.{Puts};
ghost use Rattle.numerals.specs.Writing.{Put};

// A lent buffer, and how long the text in it is: longer than the buffer where that had no room for all of it.
#[derive(Drop)]
pub struct Text<'a> {
    pub buffer: &'a mut [u8],
    pub length: usize,
}

// The byte of a digit.
fn digit(d: u32) -> u8
    requires { d < 10 }
    ensures { result ≡ 48 + d }
{
    48 + d as u8
}

// The functions below go on from place to place by value: a length behind a reference would be stored and loaded for each byte.

// One byte at a place, and the place behind it.
fn put_at(buffer: &mut [u8], place: usize, byte: u8) -> usize
    requires { place < 4000000 }
    ensures { Put buffer.old place (byte ∷ []) buffer.new result }
{
    if place < buffer.len() {
        buffer[place] = byte;
    }
    place + 1
}

// A word of at most 512 bytes.
fn put_word_at(buffer: &mut [u8], place: usize, word: &[u8]) -> usize
    requires { (place < 3000000) × (length word.now ≤ 512) }
    ensures { Put buffer.old place word.now buffer.new result }
{
    let mut next = place;
    for byte in word {
        next = put_at(buffer, next, *byte);
    }
    next
}

// A number in decimal digits, without a leading zero: at most ten of them.
fn put_decimal_at(buffer: &mut [u8], place: usize, n: u32) -> usize
    requires { place < 3000000 }
    ensures { Put buffer.old place (decimal n) buffer.new result × (result ≤ place + 10) }
{
    if n < 10 {
        return put_at(buffer, place, digit(n));
    }
    let next = put_decimal_at(buffer, place, n / 10);
    put_at(buffer, next, digit(n % 10))
}

impl Text<'_> {
    // One byte.
    pub fn put(&mut self, byte: u8)
        requires { self.old.length < 4000000 }
        ensures { Puts self.old (byte ∷ []) self.new }
    {
        self.length = put_at(self.buffer, self.length, byte);
    }

    // A word of at most 512 bytes.
    pub fn put_word(&mut self, word: &[u8])
        requires { (self.old.length < 3000000) × (length word.now ≤ 512) }
        ensures { Puts self.old word.now self.new }
    {
        self.length = put_word_at(self.buffer, self.length, word);
    }

    // A number in decimal digits, without a leading zero: at most ten of them.
    pub fn put_decimal(&mut self, n: u32)
        requires { self.old.length < 3000000 }
        ensures { Puts self.old (decimal n) self.new × (self.new.length ≤ self.old.length + 10) }
    {
        self.length = put_decimal_at(self.buffer, self.length, n);
    }

    // A number and the byte behind it.
    pub fn put_number(&mut self, n: u32, byte: u8)
        requires { self.old.length < 2000000 }
        ensures { Puts self.old (number_then n byte) self.new × (self.new.length ≤ self.old.length + 11) }
    {
        let next = put_decimal_at(self.buffer, self.length, n);
        self.length = put_at(self.buffer, next, byte);
    }
}
