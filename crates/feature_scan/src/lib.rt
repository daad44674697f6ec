//! Scans a FlatGeobuf file without an index: goes through all its features, front to back, and hands a visitor those
//! whose own boxes meet one of several boxes.
//!
//! [`scan`] reads each byte once, in requests of up to 1 MiB, judges each feature whole, and at the end their number.
//! What it finds is `found` of `found_features`.
//!
//! ```text
//! let found = scan(alloc, &header, &boxes, first, size, &mut source, &mut visitor)?;
//! ```
#![tactic(auto)]

#[cfg(test)]
mod tests;
mod walk;

pub use walk::scan;
