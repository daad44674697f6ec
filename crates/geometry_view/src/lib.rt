//! Reads the geometry of a feature: a shape of one of seven types, and its own box.
//!
//! [`GeometryView::read`] reads the whole tree below a table under a meter. It answers Ok exactly where no
//! rule is broken at or below the table and the meter has their weight (`Goes` of `fgb_schema`), and the view
//! is then the shape that the table shows (`shape_at`). No getter can fail then, and none takes memory.
//!
//! ```text
//! let shape = GeometryView::read(table, Kind::Polygon, 1, &mut meter)?;
//! for i in 0..shape.rings() {
//!     let (first, end) = shape.ring(i);
//!     // shape.xy(first) to shape.xy(end - 1)
//! }
//! let bounds = shape.bounds();
//! ```
#![tactic(auto)]

mod geometry;
mod kind;
mod lists;
mod read;

pub use geometry::GeometryView;
pub use kind::{Kind, Ordinate};

#[cfg(test)]
mod tests;
