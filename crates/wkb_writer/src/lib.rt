//! Writes a shape as WKB, in its one little-endian spelling. (OGC 06-103r4, section 8.2) Or as EWKB, with the number of
//! its reference system. (PostGIS, "Extended WKB")
//!
//! The bytes are those of `IsWkb` in `specs/Wkb`: a byte order, a type and what the type asks for, with z and m where
//! the points have them. A shape is refused with NoWkb exactly where no WKB holds it (`HasNoWkb` in
//! `specs/Dimensions`): some part has times, or its points are not of one dimension. A shape that was read and an owned
//! one are walked alike: first for the dimension of its points, and then for its bytes. `wkb_size` adds up how many
//! bytes they will be, and takes no memory.
//!
//! ```text
//! let bytes = write_wkb(alloc, &view)?;
//! let extended = write_ewkb(alloc, &view, 4326)?;
//! ```
#![tactic(auto)]

mod dialect;
mod dimension;
mod error;
mod laws;
mod rows;
mod shows;
mod size;
#[cfg(test)]
mod tests;
mod write;

pub use dialect::Dialect;
pub use dimension::Dimension;
pub use error::WkbError;
pub use laws::spellings_are_one;
pub use size::wkb_size;
pub use write::{write_ewkb, write_shape, write_wkb};
