//! Searches the index of a FlatGeobuf file (FlatGeobuf, "Index") for the leaves whose boxes meet a box.
//!
//! [`search_index`] reads just the wanted nodes, those of which every node above has a box that meets it, from the root
//! down, each once, and neighbours together. What is wanted and found stands in `specs/Wanted.antt`, as filters over
//! the levels of the whole tree. [`search_is_scan`] says that in an index that breaks no rule it finds all leaves whose
//! boxes meet the box.
//!
//! ```text
//! for hit in &search_index(alloc, &mut source, place, &levels, bounds)? {
//!     read_feature(hit.number, hit.item.offset)?;
//! }
//! ```
#![tactic(auto)]

mod law;
mod level;
mod search;
#[cfg(test)]
mod tests;

pub use law::search_is_scan;
pub use search::{Hit, search_index};
