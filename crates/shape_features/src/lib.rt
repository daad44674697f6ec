//! Shapes as the features of a FlatGeobuf file, without properties (FlatGeobuf, header.fbs and feature.fbs).
//!
//! [`header_over`] makes the header of such a file, whose type is not known, and [`features_over`] the features. They are
//! those of `specs/Features`, and each feature fits the header.
//!
//! ```text
//! let header = header_over(alloc, &shapes);
//! let features = features_over(alloc, shapes)?;
//! ```
#![tactic(auto)]

mod features;
mod header;
#[cfg(test)]
mod tests;

pub use features::features_over;
pub use header::header_over;
