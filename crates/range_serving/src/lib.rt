//! Connections to a server of one image, served one after another.
//!
//! [`serve_connections`] accepts so many connections from a listener, serves each by `serve_connection` of `range_server`,
//! and gives its link back. A contract sees each link that was given back as an entry: what it received and sent, whether it
//! failed, and whether its input has ended. `ServesConnections` says that each entry was sent the replies to what it
//! received, or a front of them where it failed, and that the receipt is the sum over the entries (`Sums`).
//!
//! ```text
//! let mut listener = MemoryAccept::new(alloc, 4000, &[])?;
//! listener.add(b"GET /map.fgb HTTP/1.1\r\nHost: 127.0.0.1\r\nRange: bytes=90-200\r\n\r\n")?;
//! serve_connections(alloc, image, &mut listener, 1)     // Ok: 1 request, 116 bytes
//! ```
#![tactic(auto)]

mod refusals;
mod serving;
#[cfg(test)]
mod tests;

pub use range_server::Receipt;
pub use refusals::ServingError;
pub use serving::serve_connections;
