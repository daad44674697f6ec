// One reply.
use crate::lines::write_head;
use crate::rows::Answer;
use arrayvec::ArrayVec;

/// The most bytes of a reply's head.
const ROOM: usize = 192;

/// The bytes of a reply's head.
pub(crate) type HeadText = ArrayVec<u8, ROOM>;

/// The reply to one head: the bytes of its own head, and which part of the image is its body. It takes no memory.
#[derive(Drop)]
pub struct Reply {
    head: HeadText,
    first: u64,
    count: u64,
    closes: bool,
}

impl Reply {
    ghost use Rattle.std.specs.Prelude.{◌≡◌, ◌≤◌, ◌^◌};
    ghost use Rattle.range_reply.specs.Parts.{IsWithin};
    ghost use Rattle.range_reply.specs.Written.{Gives, body_of, closes_of, head_of};

    /// The reply that answers this, for an image of this size.
    pub(crate) fn new(size: u64, answer: Answer, closes: bool) -> Reply
        requires small { size ≤ 2 ^ 48 }
        requires within { IsWithin size answer }
        ensures { Gives size answer closes result }
    {
        let (first, count) = answer.body(size);
        Reply {
            head: write_head(size, answer, closes),
            first,
            count,
            closes,
        }
    }

    /// The bytes of its head, to the empty line.
    pub fn head(&self) -> &[u8]
        ensures { result.now ≡ head_of self.now }
    {
        self.head.as_slice()
    }

    /// The first byte of its body in the image, and the body's length in bytes.
    pub fn body(&self) -> (u64, u64)
        ensures { result ≡ body_of self.now }
    {
        (self.first, self.count)
    }

    /// Whether the connection closes after it.
    pub fn closes(&self) -> bool
        ensures { result ≡ closes_of self.now }
    {
        self.closes
    }
}
