//! An owned header, which can be made, changed and laid (FlatGeobuf, header.fbs).
//!
//! A [`HeaderInfo`] shows the record `Header` of `fgb_schema`, whose invariant is `IsRecord` of `header_tables`.
//! [`HeaderInfo::plain`] makes one with every field at its default, [`HeaderInfo::of`] copies a header that was read, and
//! [`HeaderInfo::to_bytes`] gives the buffer, which breaks no rule and shows the same record. A [`ColumnInfo`] is a column
//! of it; features may have columns of their own, which [`columns_of`] copies and [`put_columns`] lays.
//!
//! ```text
//! let mut info = HeaderInfo::plain(alloc, 1);
//! info.push_column("id", 8)?;
//! info.set_count(3);
//! let buffer = info.to_bytes(alloc)?;
//! ```
#![tactic(auto)]

mod column;
mod crs;
mod envelope;
mod info;
mod puts;
#[cfg(test)]
mod tests;
mod texts;

pub use column::{ColumnInfo, columns_of, put_columns};
pub use info::HeaderInfo;
