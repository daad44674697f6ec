//! An owned feature, which can be made, added to, copied and laid (FlatGeobuf, feature.fbs, Feature).
//!
//! A [`FeatureInfo`] shows the record `Feature` of `fgb_schema`, whose invariant is `IsRecord` of `feature_tables`.
//! [`FeatureInfo::new`] makes one of a geometry, or of none, [`FeatureInfo::push_prop`] puts a property behind the
//! others, [`FeatureInfo::of`] copies a feature that was read, and [`FeatureInfo::to_bytes`] gives the buffer. Under each
//! header that the feature [`fits`](FeatureInfo::fits), the buffer breaks no rule and shows the same record.
//!
//! ```text
//! let mut feature = FeatureInfo::new(alloc, Some(point));
//! feature.push_prop(0, Value::Str(b"Malta"))?;
//! if feature.fits(&header) {
//!     let buffer = feature.to_bytes(alloc)?;
//! }
//! ```
#![tactic(auto)]

mod bytes;
mod feature;
mod prop;
mod puts;
#[cfg(test)]
mod tests;
mod value;

pub use feature::FeatureInfo;
