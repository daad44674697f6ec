// A text of a few bytes.
ghost use Rattle.std.specs.Prelude.{◌≤◌};

use itoa::Buffer;

/// The most bytes of a text: the word, three numbers of 15 digits, and what stands between them.
const ROOM: usize = 53;

/// A text that needs no memory.
#[derive(Clone, Copy)]
pub struct ShortText {
    bytes: [u8; ROOM],
    len: usize,
    pub ghost inside: { len ≤ 53 },
}

impl ShortText {
    ghost use Rattle.std.specs.Prelude.{◌≡◌, [], ◌++◌, ◌+◌, length, decimal};
    ghost use Rattle.range_text.specs.Texts.{text_of};

    /// Its bytes.
    pub fn bytes(&self) -> &[u8]
        ensures { result.now ≡ text_of self.now }
    {
        &self.bytes[..self.len]
    }

    /// No byte.
    pub(crate) fn new() -> ShortText
        ensures text { text_of result ≡ [] }
        ensures len { result.len ≡ 0 }
    {
        ShortText {
            bytes: [0; ROOM],
            len: 0,
        }
    }

    /// Appends bytes.
    pub(crate) fn push(&mut self, bytes: &[u8])
        requires { self.old.len + length bytes.now ≤ 53 }
        ensures text { text_of self.new ≡ text_of self.old ++ bytes.now }
        ensures len { self.new.len ≡ self.old.len + length bytes.now }
    {
        self.bytes[self.len..self.len + bytes.len()].copy_from_slice(bytes);
        self.len += bytes.len();
    }

    /// Appends the decimal digits of a number.
    pub(crate) fn push_number(&mut self, number: u64)
        requires { self.old.len + length (decimal number) ≤ 53 }
        ensures text { text_of self.new ≡ text_of self.old ++ decimal number }
        ensures len { self.new.len ≡ self.old.len + length (decimal number) }
    {
        let mut buffer = Buffer::new();
        self.push(buffer.format(number).as_bytes());
    }
}
