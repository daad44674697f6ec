//! The texts of byte ranges in HTTP (RFC 9110, section 14), read and written.
//!
//! [`read_range`] says which part of a file the value of a Range field asks for, [`read_content_range`] what the value of
//! a Content-Range field tells. [`write_range`] and [`write_content_range`] write such values, and what they write is
//! read back as the same numbers. No call takes memory.
//!
//! ```text
//! read_range(b"bytes=90-200", 100)        // Part { first: 90, last: 99 }
//! write_range(90, 99).bytes()             // b"bytes=90-99"
//! ```
#![tactic(auto)]

mod answers;
mod numbers;
mod reading;
mod short_text;
#[cfg(test)]
mod tests;
mod writing;

pub use answers::{ContentRange, RangeAnswer};
pub use reading::{read_content_range, read_range};
pub use short_text::ShortText;
pub use writing::{write_content_range, write_range};
