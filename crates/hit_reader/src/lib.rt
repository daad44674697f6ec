//! Reads the features of a FlatGeobuf file that leaves of its index name (FlatGeobuf, "Index"), and hands them to a
//! visitor.
//!
//! [`take_hits`] reads them in file order, each byte once, and those of neighbouring leaves together. It judges each
//! whole, and beside its leaf. What stands where a leaf says is `entry_at` in `specs/Met.antt`, whatever the bytes are.
//!
//! ```text
//! let hits = search_index(alloc, &mut source, place, &levels, bounds)?;
//! take_hits(alloc, &section, &hits, &mut source, &mut visitor)?;
//! ```
#![tactic(auto)]

mod feature;
mod hits;
mod leaf;
mod run;
mod section;
#[cfg(test)]
mod tests;

pub use hits::take_hits;
pub use section::Section;
