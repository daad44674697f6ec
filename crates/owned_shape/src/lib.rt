//! A geometry that is owned: it can be made, added to, and copied from one that was read. (FlatGeobuf, feature.fbs, Geometry)
//!
//! A [`Shape`] shows the tree `Shape` of `fgb_schema`, and keeps what `specs/Records` says: numbers that are finite,
//! rings that follow one another, ordinates for each point or for none, and at most 16 levels. So what it shows can be
//! laid as a geometry that breaks no rule.
//!
//! ```text
//! let mut polygon = Shape::new(alloc, Kind::Polygon);
//! polygon.push_points(&outer)?;
//! polygon.push_points(&hole)?;
//! let copy = Shape::of(alloc, &view)?;
//! ```
#![tactic(auto)]

mod copies;
mod lists;
mod shape;
mod tables;
#[cfg(test)]
mod tests;

pub use shape::Shape;
