//! Coordinates as the bit patterns of IEEE 754 binary64 numbers (subclause 3.4), compared by whole-number
//! keys in place of floating point, the boxes made of them, and the words that spell both.
//!
//! For the layers above, [`Coord`] and [`Bounds`] are plain values, and `specs/` has what is said of them:
//! `key_of` and `IsAtMost` order patterns, `IsExactly` says which number a pattern stands for, `Meets`, `Contains`
//! and `IsSame` relate boxes, with `meets` as the test that a list is filtered by, `join` is the least box that
//! contains two, and `SpellsBox` says which box a word spells. A word spells one box at most.
//!
//! ```
//! let area = read_box("-180,-90,-1,-1")?;
//! let point = Bounds::of_point(read_bound("-90")?, read_bound("-45")?);
//! let found = area.meets(point);
//! ```
//!
//! No call takes memory.
#![tactic(auto)]

mod bounds;
mod coord;
mod words;

pub use bounds::Bounds;
pub use coord::Coord;
pub use words::{BoundFault, read_bound, read_box};

#[cfg(test)]
mod tests;
