//! Reads values of WKB (OGC 06-103r4, section 8.2) and of EWKB (PostGIS, "Extended WKB"), in either byte order, as shapes
//! that are owned.
//!
//! Bytes are read as a shape exactly where they are a value of it (`Wkb` and `Ewkb` of `wkb_grammar`). All others are
//! refused: the items of a value (a byte order, a type, the number of a reference system, a count, an ordinate) are taken
//! from the front, and the first that breaks a rule is named, as `specs/Broken` says (`BreaksWkb`, `BreaksEwkb`,
//! `BreaksFront`). A [`Cursor`](cursor::Cursor) stands in front of what is left, and each call on it takes one thing: an
//! item, a head, a point, a line, a value.
//!
//! ```text
//! let shape = read_wkb(alloc, &bytes)?;
//! let shape = read_ewkb(alloc, &bytes)?;
//! let (shape, length) = read_wkb_front(alloc, &bytes)?;
//! ```
#![tactic(auto)]

mod cursor;
mod head;
mod members;
mod points;
mod read;
mod shapes;
#[cfg(test)]
mod tests;
mod value;

pub use read::{read_ewkb, read_wkb, read_wkb_front};
