//! Features that are made: Points on a grid of 361 columns and 181 rows, in steps that go round it, each with its number
//! (FlatGeobuf, feature.fbs, Feature).
//!
//! [`grid_header`] is their header, with geometry type Point and the one column `id`, and [`grid_features`] gives so many of
//! them, from a start on. They are those of `specs/Grid.antt`, and each fits the header.
//!
//! ```text
//! let header = grid_header(alloc)?;
//! let features = grid_features(alloc, 1000, 0)?;
//! ```
#![tactic(auto)]

mod features;
#[cfg(test)]
mod tests;

pub use features::{grid_features, grid_header};
