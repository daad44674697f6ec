//! Writes what a query of one to eight boxes finds in a FlatGeobuf file as one of three texts ([`Output`]), in pieces, to a
//! sink: a line of each feature, a file of them, or the WKB of each geometry in hexadecimal digits.
//!
//! [`write_found`] hands what the query finds to a visitor, which lays the piece of each feature (`piece` in
//! `specs/Texts.antt`) on a page and writes the page when it is full (`specs/Pages.antt`). The last page is written
//! behind the query, where that came to its end or was refused. The visitor, [`Writer`], and the end, [`finish`], serve
//! other queries, too.
//!
//! ```text
//! write_found(alloc, &boxes, 0, Output::Wkb, &mut file, &mut out)?;
//! ```
#![tactic(auto)]

mod digits;
mod error;
mod front;
mod lines;
mod output;
mod page;
mod query;
#[cfg(test)]
mod tests;
mod writer;

pub use error::TextError;
pub use output::Output;
pub use page::Page;
pub use query::{finish, write_found};
pub use writer::Writer;
