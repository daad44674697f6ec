//! The query of one to eight boxes: hands a visitor the features of a FlatGeobuf file whose own boxes meet one of them, in
//! file order, each once.
//!
//! [`query`] asks a source for no needless byte: of a file with an index just for the start and the header, the nodes of
//! which every node above has a box that meets one of the boxes, the features found, and the holes between these that
//! are shorter than a gap (`asked` in `specs/Needed.antt`); of one without an index for each byte once.
//! [`searches_are_scans`] says that on a file that breaks no rule both find what a filter over all features finds.
//!
//! ```text
//! let mut visitor = Collect::new(alloc);
//! let done = query(alloc, &mut source, &boxes, gap, &mut visitor)?;
//! ```
#![tactic(auto)]

mod laws;
mod source;
#[cfg(test)]
mod tests;

pub use found_features::{Collect, Found, QueryError, VisitError, Visitor};
pub use laws::searches_are_scans;
pub use source::{QueryDone, query};
