//! The head of a response, read (RFC 9112, sections 2 to 5).
//!
//! [`Response::read`] takes the bytes of a head, up to and with its empty line, and gives the [`Response`] that they are,
//! by the grammar of `httparse`. Its methods give its status and the values of its fields.
//!
//! ```text
//! let response = Response::read(b"HTTP/1.1 206 Partial Content\r\nContent-Length: 10\r\n\r\n")?;
//! response.status()                        // 206
//! response.only_value(b"content-length")   // Some(b"10")
//! ```
#![tactic(auto)]

mod fields;
mod responses;
#[cfg(test)]
mod tests;

pub use responses::Response;
