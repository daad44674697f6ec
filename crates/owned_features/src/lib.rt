//! The header and the features of a whole FlatGeobuf file, read into memory.
//!
//! [`read_features`] checks the file of a source as `check` of `fgb_check` does, its index too, and then copies its header
//! and its features, in the order of the file. An [`OwnedFile`] holds them, and where the size prefix of each feature stands.
//! Each feature fits the header, so that all of it can be laid again.
//!
//! ```text
//! let file = read_features(alloc, &mut source)?;
//! for feature in &file.features { .. }
//! ```
#![tactic(auto)]

mod file;
#[cfg(test)]
mod tests;

pub use file::{OwnedFile, read_features};
pub use read_stop::ReadStop;
