//! WKB files: values of WKB one after another, possibly none, at most 268,435,456 bytes (OGC 06-103r4, section 8.2).
//!
//! [`read_values`] reads a source as the shapes of its values, exactly where its bytes are such a file (`IsWkbFile` in
//! `specs/Values`), and names what is broken where they are not (`BreaksWkbFile` in `specs/Broken`). Each shape that is
//! read can be written.
//!
//! ```text
//! let shapes = read_values(alloc, &mut source)?;
//! ```
#![tactic(auto)]

mod laws;
mod read;
#[cfg(test)]
mod tests;

pub use laws::{files_have_one_list, spellings_are_files, values_have_spellings};
pub use read::{read_values, values_in};
