//! Lays FlatBuffers tables into the bytes of a buffer (FlatBuffers, "Internals").
//!
//! A [`FlatTable`] is made by puts: each gives the field of an id a value, a [`Scalar`], a string, a [`FlatVector`], a
//! table or a vector of tables, and the ids ascend. [`FlatTable::finish`] gives the buffer whose root it is, where it is
//! not longer than a limit. In `specs/`, `Trees` says what a table shows, a tree of fields, and `Laying` which bytes are
//! laid for it: its *vtable*, which says where each *field* stands, the *table* with its fields, and behind it in the
//! order of ids what its offsets lead to, *strings*, *vectors* and tables.
//!
//! ```text
//! let mut table = FlatTable::new(alloc);
//! table.put_string(0, "abc")?;
//! table.put_scalar(2, Scalar::U8(7))?;
//! let buffer = table.finish(alloc, 1024)?;
//! ```
#![tactic(auto)]

mod bytes;
mod error;
mod lay;
mod measure;
mod table;
#[cfg(test)]
mod tests;
mod value;

pub use error::BuildError;
pub use table::FlatTable;
pub use value::{FlatVector, Scalar};
