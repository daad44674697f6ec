//! A server of ranges of one image, over any pieces of input (RFC 9112, sections 2.2 and 9.3).
//!
//! A [`ServerCore`] stands behind one connection: [`ServerCore::take`] is given the bytes that have come, uses them up to
//! the end of a head, and gives the reply to it. [`pieces_make_no_difference`] says that it does not matter how the bytes
//! were cut, and [`connections_stand_alone`] that it does not matter what comes on others. [`serve_connection`] serves an
//! image over a link: what it sends is `replies` of what it receives, or a front of them where it is refused (`Serves`).
//!
//! ```text
//! let mut core = ServerCore::new(100);
//! core.take(b"GET /map.fgb HTTP/1.1\r\nHost: 127.0.0.1\r\n").reply     // None
//! core.take(b"Range: bytes=90-200\r\n\r\n").reply                      // 206 and ten bytes
//! ```
#![tactic(auto)]

mod kept;
mod laws;
mod one_core;
mod receipts;
mod serving;
#[cfg(test)]
mod tests;

pub use laws::{connections_stand_alone, pieces_make_no_difference};
pub use one_core::{ServerCore, Taken};
pub use range_reply::Reply;
pub use receipts::{Receipt, ServeError};
pub use serving::serve_connection;
