//! Searches the index of a FlatGeobuf file (FlatGeobuf, "Index") for the leaves whose boxes meet one of several boxes.
//!
//! [`search_boxes`] reads just the wanted nodes, those of which every node above has a box that meets one of them, from
//! the root down, each once, and the holes between them that are shorter than a gap. What is wanted and found is that
//! of `tree_search`, under the test that a box meets one of the boxes. Each hit also says where the feature of the next
//! leaf begins, where that leaf was read, so that a reader of features knows where this one ends.
//!
//! ```text
//! for hit in &search_boxes(alloc, &mut source, place, &levels, &boxes, gap)? {
//!     read_feature(hit.number, hit.item.offset, hit.next)?;
//! }
//! ```
#![tactic(auto)]

mod level;
mod nodes;
mod search;
#[cfg(test)]
mod tests;

pub use nodes::Hit;
pub use search::search_boxes;
