//! Writes owned features as a FlatGeobuf file without an index (FlatGeobuf, "Specification").
//!
//! [`lay_plain`] writes the header, with the number of the features and no index, and each feature behind its size prefix:
//! `plain_file` of the crate of that name. What is written is a valid file, which shows the same header and just these
//! features in their order. Nothing is written where a feature, the header or the file would be too large for the format.
//!
//! ```text
//! let done = lay_plain(alloc, &header, &features, &mut out)?;
//! ```
#![tactic(auto)]

mod laying;
mod planning;
#[cfg(test)]
mod tests;
mod writing;

pub use laying::lay_plain;
