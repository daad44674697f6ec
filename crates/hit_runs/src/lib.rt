//! Reads the features of a FlatGeobuf file that leaves of its index name (FlatGeobuf, "Index"), and lends them one after
//! another.
//!
//! A [`HitRuns`] is given the leaves that a search found, in ascending order. [`HitRuns::advance`] goes on to the next
//! feature, judges it whole and beside its leaf, and [`HitRuns::feature`] lends it from a buffer that is used again. The
//! features of a run, each of which stands at the end of the one before or behind a hole that is shorter than the gap, are
//! read together. What stands where a leaf says is `entry_at` of `hit_reader`, whatever the bytes are. [`take_hits`] hands
//! all of them to a visitor.
//!
//! ```text
//! let mut runs = HitRuns::new(alloc, hits, section.first, section.end, gap);
//! while runs.advance(&section, &mut source)? {
//!     visitor.take(&runs.feature())?;
//! }
//! ```
#![tactic(auto)]

mod extent;
mod fetch;
mod judge;
mod laws;
mod runs;
#[cfg(test)]
mod tests;
mod visit;

pub use laws::files_are_laid;
pub use runs::HitRuns;
pub use visit::take_hits;
