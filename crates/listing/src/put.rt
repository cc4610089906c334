// A text that is put into a lent buffer, a word or a number at a time.
ghost use Rattle.std.specs.Prelude.{◌≡◌};
ghost use Rattle.listing.specs.Text.{decimal, closed};
ghost use Rattle.listing.specs.Puts.{Room, Puts};

use itoa::Buffer;

// A text as far as it is put: the first `len` bytes of a lent buffer, since there is no heap. It is no `fmt::Write`: `write!` may fail, and does not promise when
// it succeeds; a listing never fails. That there is room (`Room`) is asked where something is put: it speaks of what is still to be put, and so of no text alone.
#[derive(Drop)]
pub struct Text<'a> {
    pub bytes: &'a mut [u8],
    pub len: usize,
}

impl<'a> Text<'a> {
    // Of which nothing is put.
    pub fn new(bytes: &'a mut [u8]) -> Text<'a>
        ensures same { result.bytes.ghost_name ≡ bytes.entry.ghost_name }
        ensures bytes { result.bytes.now ≡ bytes.old }
        ensures start { result.len ≡ 0 }
    {
        Text { bytes, len: 0 }
    }

    // Puts a word and the byte that ends it.
    pub fn put_word(&mut self, word: &[u8], end: u8)
        requires { Room (closed word.now end) self.old }
        ensures { Puts (closed word.now end) self.old self.new }
    {
        let behind = self.len + word.len();
        self.bytes[self.len..behind].copy_from_slice(word);
        self.bytes[behind] = end;
        self.len = behind + 1;
    }

    // Puts a number in decimal and the byte that ends it.
    pub fn put_number(&mut self, n: usize, end: u8)
        requires { Room (closed (decimal n) end) self.old }
        ensures { Puts (closed (decimal n) end) self.old self.new }
    {
        let mut digits = Buffer::new();
        self.put_word(digits.format(n).as_bytes(), end);
    }
}
