//! The conversion of a file between FlatGeobuf and well-known binary (FlatGeobuf, "Specification"; OGC 06-103r4, section 8.2).
//!
//! [`convert_file`] reads the whole file of a source as a header and features, and writes these in the other form, or anew
//! in the same. A WKB file is read as the features over its shapes, and written as the values of the features. The file is
//! judged whole before anything is written. What an input is stands in `specs/Inputs`, and what is written of it in
//! `specs/Conversions`.
//!
//! ```text
//! convert_file(alloc, Format::Wkb, Format::Fgb, &mut file, &mut out)?;
//! ```
#![tactic(auto)]

mod convert;
mod laws;
mod reading;
mod stop;
#[cfg(test)]
mod tests;
mod writing;

pub use command_words::{Format, Stop};
pub use convert::convert_file;
pub use laws::{round_trips, values_are_convertible};
