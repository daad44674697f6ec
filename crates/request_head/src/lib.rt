//! The head of a request, read (RFC 9112, sections 2 to 5).
//!
//! [`Request::read`] takes the bytes of a head, up to and with its empty line, and gives the [`Request`] that they are,
//! by the grammar of `httparse`. Its methods give the parts, and what the fields say about the connection.
//!
//! ```text
//! let request = Request::read(b"GET /map.fgb HTTP/1.1\r\nHost: 127.0.0.1\r\n\r\n")?;
//! request.target()                // b"/map.fgb"
//! request.only_value(b"range")    // None
//! ```
#![tactic(auto)]

mod fields;
mod requests;
#[cfg(test)]
mod tests;

pub use requests::Request;
