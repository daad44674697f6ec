//! Packs owned features under an owned header into a FlatGeobuf file: in the order of the Hilbert curve, with an index over
//! them (FlatGeobuf, "Index").
//!
//! [`pack_features`] lays the header and the features, and writes their packing (`IsPacking` of `packed_file`). What is
//! written is a file that breaks no rule, with this header, and its features show the same records (`Packs` in
//! `specs/Packs.antt`). Nothing is written where a feature, the header or the file would be larger than the format lets it
//! be.
//!
//! ```text
//! let done = pack_features(alloc, &header, &features, 16, &mut out)?;
//! ```
#![tactic(auto)]

mod pieces;
mod planning;
#[cfg(test)]
mod tests;
mod writing;

pub use writing::pack_features;
