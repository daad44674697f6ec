//! The records of a table of comma-separated values in memory (RFC 4180), read and written by `csv`.
//!
//! A record is a list of fields, a field any bytes. [`Records`] is seen as the records that are left; at first they are
//! `records_in` the table's bytes (`specs/Tables.antt`), where a blank line is no record. [`RecordPage`] is seen as the bytes
//! that stand on it, and lays the `record_text` of one record behind them. What is written reads back
//! ([`tables_read_back`]).
//!
//! ```text
//! let mut records = Records::new(alloc, table);
//! while records.next(&mut row)? {
//!     page.lay(&row)?;
//! }
//! ```
#![tactic(auto)]

mod laws;
mod lay;
mod page;
mod records;
#[cfg(test)]
mod tests;

pub use csv::ByteRecord;
pub use laws::{records_are_few, tables_read_back};
pub use page::RecordPage;
pub use records::Records;
