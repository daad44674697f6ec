//! Makes a file in memory and queries it: the features of a grid, packed with an index, and a query of the box from -10 to
//! 10 (FlatGeobuf, "Index").
//!
//! [`make_text`] writes the lines of the features found and a line of numbers, as `IsMadeText` in `specs/Made.antt` says.
//! The same arguments give the same text each time.
//!
//! ```text
//! make_text(alloc, 1, 32_670, &mut out)?;     // a line, and `features 1 nodes 2 bytes 288 found 1 asked 288`
//! ```
#![tactic(auto)]

mod kept;
mod making;
mod querying;
mod summary;
#[cfg(test)]
mod tests;
mod text;

pub use command_words::Stop;
pub use text::make_text;
