//! Reads the index of a FlatGeobuf file (FlatGeobuf, "Index"), from its root down to its leaves.
//!
//! [`judge_index`] judges all nodes of an index in memory, and takes no memory; [`read_index`] reads them from a source
//! in requests of up to 1 MiB, and keeps no more than a group of them. Both say whether a rule of `BreaksTree` of
//! `node_items` is broken anywhere, and else name one. [`Leaves`] then gives one leaf after another.
//!
//! ```text
//! read_index(alloc, &mut source, place, &levels)?;
//! let mut leaves = Leaves::new(alloc, place, &levels);
//! while let Some(leaf) = leaves.next(&mut source)? { .. }
//! ```
#![tactic(auto)]

mod groups;
mod leaves;
mod memory;
mod nodes;
#[cfg(test)]
mod tests;

pub use groups::judge_group;
pub use leaves::Leaves;
pub use memory::{judge_index, leaf};
pub use nodes::read_index;
