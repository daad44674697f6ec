//! What a server of one image answers to the head of a request (RFC 9110, sections 9, 14 and 15; RFC 9112, section 3).
//!
//! [`answer`] reads a head, the bytes up to and with its empty line, and gives the [`Reply`]: the bytes of its own head,
//! which part of the image follows as its body, and whether the connection closes then. No call takes memory.
//!
//! ```text
//! let reply = answer(100, b"GET /map.fgb HTTP/1.1\r\nHost: 127.0.0.1\r\nRange: bytes=90-200\r\n\r\n");
//! reply.body()        // (90, 10)
//! reply.closes()      // false
//! ```
#![tactic(auto)]

mod judge;
mod laws;
mod lines;
mod rows;
#[cfg(test)]
mod tests;
mod written;

pub use judge::answer;
pub use laws::heads_are_read_by_the_grammar;
pub use written::Reply;
