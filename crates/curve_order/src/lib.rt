//! The order in which a packer puts features (FlatGeobuf, "Index"; Hilbert, "Über die stetige Abbildung einer Linie auf ein
//! Flächenstück"): cells of a grid of 65,536 by 65,536 over an extent, and their numbers along the Hilbert curve.
//!
//! [`cell`] is the cell of the middle of a box, by the keys of its coordinates. [`curve`] is the number of a cell along
//! the curve, [`uncurve`] the cell of a number. No call takes memory.
//!
//! ```text
//! let (x, y) = cell(bounds, extent);
//! let number = curve(x, y);
//! uncurve(number)     // (x, y)
//! ```
#![tactic(auto)]

mod cells;
mod hilbert;
#[cfg(test)]
mod tests;

pub use cells::cell;
pub use hilbert::{curve, neighbours_touch, uncurve};
