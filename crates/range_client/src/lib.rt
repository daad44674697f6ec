//! A file behind an HTTP server, read by ranges (RFC 9110, section 14; RFC 9112).
//!
//! A [`RangeClient`] asks over a [`Link`](byte_links::Link) for parts of the file at one path, and is a
//! [`RangeSource`](fgb_outside::RangeSource). It believes only a reply that is just what it asked for: a 206 with that
//! range, that size of the file and that length. After any other reply, and after a call of its link that failed, it sends
//! nothing more.
//!
//! ```text
//! let mut client = RangeClient::connect(alloc, link, "/map.fgb")?;
//! let mut magic = [0; 8];
//! client.read_at(0, &mut magic)?;
//! ```
#![tactic(auto)]

mod bodies;
mod client;
mod demands;
mod exchange;
mod faults;
mod fronts;
mod heads;
mod judge;
mod laws;
mod requests;
mod speaker;
#[cfg(test)]
mod tests;

pub use client::RangeClient;
pub use faults::{BadKind, ConnectError, ConnectRefused};
pub use laws::replies_are_judged_in_one_way;
