// What stands behind one connection.
ghost use Rattle.std.specs.Prelude.{◌≡◌, ◌≤◌, ◌==◌, ◌||◌, ◌^◌, ◌++◌, take, length, Some, None, IfSome, IfNone};
ghost use Rattle.range_reply.specs.Heads.{most_heads, next_len};
ghost use Rattle.range_reply.specs.Written.{Answers, closes_of};
ghost use Rattle.range_server.specs.Core.{after, new_core, used_len};

use crate::kept::{Kept, keep};
use range_reply::{Reply, answer};
use std::marker::Model;

/// How many heads of one connection are answered.
const MOST_HEADS: u64 = 1_000_000_000;

/// How many bytes of a piece were used, and the reply to the head that ended with them.
#[derive(Drop)]
pub struct Taken {
    pub used: usize,
    pub reply: Option<Reply>,
}

/// The core of one connection to a server of one image: it takes the bytes that come, and answers each head when it has
/// ended. It keeps at most 8,192 bytes and takes no memory.
#[derive(Drop)]
pub struct ServerCore {
    size: u64,
    kept: Kept,
    answered: u64,
    closed: bool,
}

impl Model for ServerCore {
    ghost use Rattle.std.specs.Prelude.{◌≤◌, ◌^◌};
    ghost use Rattle.range_server.specs.Core.{Core, IsSound};

    ghost Value = { Core };

    ghost view = { λ c. record { size = c.size; kept = c.kept.items; answered = c.answered; closed = c.closed } };

    ghost invariant = { λ c. (c.size ≤ 2 ^ 48) × IsSound (record { size = c.size; kept = c.kept.items; answered = c.answered; closed = c.closed }) };
}

impl ServerCore {
    /// A core for an image of this size in bytes.
    pub fn new(size: u64) -> ServerCore
        requires { size ≤ 2 ^ 48 }
        ensures { result ≡ new_core size }
    {
        ServerCore {
            size,
            kept: Kept::new(),
            answered: 0,
            closed: false,
        }
    }

    /// Takes the front of a piece of input: up to the end of a head, or of 8,192 bytes that hold none, which is answered
    /// then, or else all of it. Of a closed core nothing is used.
    pub fn take(&mut self, bytes: &[u8]) -> Taken
        ensures used { result.used ≡ used_len self.old bytes.now }
        ensures within { result.used ≤ length bytes.now }
        ensures core { self.new ≡ after self.old (take result.used bytes.now) }
        ensures answer { IfSome result.reply (λ reply. let head = self.old.kept ++ take result.used bytes.now in
            (next_len head ≡ Some (length head)) × Answers self.old.size head reply) }
        ensures silent { IfNone result.reply (next_len (self.old.kept ++ take result.used bytes.now) ≡ None) }
    {
        if self.closed {
            return Taken {
                used: 0,
                reply: None,
            };
        }
        match keep(&mut self.kept, bytes) {
            Some(used) => {
                let reply = answer(self.size, self.kept.as_slice());
                self.kept.clear();
                self.answered += 1;
                self.closed = is_last(&reply, self.answered);
                Taken {
                    used,
                    reply: Some(reply),
                }
            }
            None => Taken {
                used: bytes.len(),
                reply: None,
            },
        }
    }

    /// Whether nothing more is answered.
    pub fn is_closed(&self) -> bool
        ensures { result ≡ self.now.closed }
    {
        self.closed
    }
}

/// Whether nothing more is answered behind this reply, the so-manieth of its connection.
fn is_last(reply: &Reply, answered: u64) -> bool
    ensures { result ≡ (closes_of reply.now || (answered == most_heads)) }
{
    reply.closes() || answered == MOST_HEADS
}
