//! A link whose other end is a server of one image, in the same program.
//!
//! What is written to a [`LoopLink`] is taken by a [`ServerCore`](range_server::ServerCore), and its replies are what is
//! read. A contract sees that it tells its image and that it is in step with whoever asks for parts of it, so that a
//! [`RangeClient`](range_client::RangeClient) over it reads the image: [`connect_loop`] fails for want of memory alone.
//!
//! ```text
//! let mut client = connect_loop(alloc, image, 1)?;
//! client.read_at(90, &mut part)?;
//! ```
#![tactic(auto)]

mod asks;
mod clients;
mod feeding;
mod links;
#[cfg(test)]
mod tests;

pub use clients::connect_loop;
pub use links::LoopLink;
