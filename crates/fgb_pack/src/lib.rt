//! Packs a FlatGeobuf file: puts its features into the order of the Hilbert curve, with an index over them (FlatGeobuf,
//! "Index").
//!
//! [`pack`] reads a source and writes its packing (`IsPacking` of `packed_file`). Nothing is written of a file that breaks
//! a rule, or whose packing would be too large for the format.
//!
//! ```text
//! let done = pack(alloc, &mut source, 16, &mut out)?;
//! ```
#![tactic(auto)]

mod done;
mod file;
mod planning;
#[cfg(test)]
mod tests;

pub use done::{PackDone, PackError};
pub use file::pack;
