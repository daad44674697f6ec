//! The buffers of owned features, all of them or none (FlatGeobuf, feature.fbs, Feature).
//!
//! [`lay_features`] gives the buffer of each feature, in order, or says that one would be larger than the format lets it
//! be. `pieces_of` in `specs/Buffers.antt` is what stands in a file: each buffer behind its size prefix. Under each header
//! that all the features fit, each piece breaks no rule (`each`), shows just its feature (`shown`), and has the own box of
//! its shape (`boxed`).
//!
//! ```text
//! let buffers = lay_features(alloc, &features)?;
//! ```
#![tactic(auto)]

mod lay;
#[cfg(test)]
mod tests;

pub use lay::lay_features;
