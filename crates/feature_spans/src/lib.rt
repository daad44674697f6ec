//! Where the features of a FlatGeobuf file stand and which boxes they have, and their bytes copied in another order.
//!
//! [`survey_features`] goes through the features of a source, and [`copy_spans`] writes parts of a source one after another, each
//! unchanged.
//!
//! ```text
//! let survey = survey_features(alloc, &header, first, end, &mut source)?;
//! copy_spans(alloc, &mut source, &survey.spans, &mut out)?;
//! ```
#![tactic(auto)]

mod copy;
mod features;
#[cfg(test)]
mod tests;

pub use copy::{CopyError, copy_spans};
pub use features::{Span, Survey, survey_features};
