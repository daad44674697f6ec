//! Views of the tables, strings and vectors of a FlatBuffers buffer that nobody vouches for.
//!
//! A view is a `Copy` value over lent bytes: no call takes memory, and no call trusts an offset, a
//! vtable or a count before it has looked at it. Each call answers Ok exactly where nothing that it
//! goes through is broken, with what stands there, and refuses with a broken rule and its place.
//!
//! Clauses above speak of a table by `bytes_of`, `base_of` and `place_of` (`specs/Tables.antt`), of a
//! vector by `vector_bytes`, `vector_base`, `vector_place` and `vector_width` (`specs/Vectors.antt`),
//! of a vector of tables by `tables_bytes`, `tables_base` and `tables_place` (`specs/TableVecs.antt`),
//! and of what stands in the bytes by the words of `flat_layout`. A `Meter` bounds what a reader may
//! visit in one buffer: `left_of` and `meter_place` (`specs/Meters.antt`).
//!
//! ```text
//! let table = Buf::new(bytes, base).root()?;
//! let kind = table.scalar_u8(2, 0)?;
//! if let Some(xy) = table.vector(1, 8)? {
//!     // xy.len() numbers, the first of them xy.at_u64(0)
//! }
//! if let Some(name) = table.string(0)? {
//!     meter.spend(name.len() as u64)?;
//! }
//! ```
#![tactic(auto)]

mod buffer;
mod meter;
mod strings;
mod tables;
mod vectors;

pub use buffer::Buf;
pub use flat_layout::{Broken, Rule};
pub use meter::Meter;
pub use tables::Table;
pub use vectors::{TableVec, VecView};

#[cfg(test)]
mod tests;
