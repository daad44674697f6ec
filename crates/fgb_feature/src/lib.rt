//! Reads a feature whole: its geometry, its properties and its own columns.
//!
//! [`FeatureView::read`] answers Ok exactly where the feature's buffer breaks no rule under its header
//! (`BreaksBuffer` of `fgb_schema`), and is then the record that the buffer shows (`feature_of`); else it names a
//! broken rule and its place. No getter can fail after that, and nothing takes memory. [`Props`] gives the
//! properties in order, each a column's number and a [`Value`]. [`geometry_under`] reads the geometry alone.
//!
//! ```text
//! let feature = FeatureView::read(&buffer, place, &header)?;
//! for (column, value) in feature.properties() { .. }
//! ```
#![tactic(auto)]

mod feature;
mod props;
#[cfg(test)]
mod tests;

pub use feature::{FeatureView, geometry_under};
pub use fgb_values::Value;
pub use props::Props;
