//! Writes the index of a FlatGeobuf file (FlatGeobuf, "Index"): a packed R-tree over leaves in their order.
//!
//! [`write_tree`] writes the nodes from the root down, level by level (`packed_bytes` in `specs/Packed.antt`).
//! [`packed_trees_are_sound`] is a law: where each leaf has a box, no node of such a tree breaks a rule, and each is
//! stored under its number.
//!
//! ```text
//! write_tree(alloc, &levels, &leaves, &mut out)?;
//! ```
#![tactic(auto)]

mod law;
#[cfg(test)]
mod tests;
mod tree;

pub use law::packed_trees_are_sound;
pub use tree::write_tree;
