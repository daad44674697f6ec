//! Reads a FlatGeobuf file front to back: its start, its header, and its features one after another.
//!
//! Over a source [`read_start`] and [`read_header`] read what stands in front, and [`Pieces`] goes through the
//! features in requests of up to 1 MiB, and lends the buffer of each without copying it. [`judge_size`],
//! [`judge_start`], [`judge_header`] and [`framed_size`] judge the same bytes wherever they lie, so that a file in
//! memory is judged by the same calls. [`judge_levels`] says which levels the index has that stands behind the header,
//! if there is one. [`Tally`] counts the features and judges their number.
//!
//! ```text
//! let size = file.size();
//! let buffer = read_header(alloc, &mut file, read_start(&mut file, size)?)?;
//! let header = judge_header(&buffer)?;
//! let mut pieces = Pieces::new(alloc, 12 + buffer.len() as u64, size);
//! while pieces.advance(&mut file)? {
//!     let feature = FeatureView::read(pieces.buffer(), pieces.place() + 4, &header)?;
//! }
//! ```
#![tactic(auto)]

mod pieces;
mod start;
mod tally;
#[cfg(test)]
mod tests;

pub use pieces::{PREFIX, Pieces, framed_size};
pub use read_stop::ReadStop;
pub use start::{
    START, has_index, judge_header, judge_levels, judge_size, judge_start, read_header, read_start,
};
pub use tally::Tally;
