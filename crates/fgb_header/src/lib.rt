//! Reads a FlatGeobuf header whole: its texts, its columns and its coordinate reference system.
//!
//! [`HeaderView::read`] answers Ok exactly where the buffer breaks no rule (`BreaksBuffer` of `fgb_schema`)
//! with what the buffer shows, and else names a broken rule and its place. No getter can fail then.
//! [`Columns::read`] reads a list of columns under a meter, since features have columns of their own.
//!
//! ```text
//! let header = HeaderView::read(&buffer, 12)?;
//! let columns = header.columns();
//! for i in 0..columns.len() {
//!     let column = columns.get(i);
//!     // column.name(), column.kind()
//! }
//! ```
#![tactic(auto)]

mod column;
mod columns;
mod crs;
mod groups;
mod header;

pub use column::ColumnView;
pub use columns::Columns;
pub use crs::CrsView;
pub use header::HeaderView;

#[cfg(test)]
mod tests;
