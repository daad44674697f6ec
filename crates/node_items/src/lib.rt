//! The nodes of the index of a FlatGeobuf file (FlatGeobuf, "Index"), 40 bytes each, and the groups that they stand in.
//!
//! [`NodeItem`] is a node, read from its bytes and written as them. [`Group`] is all children of one node as they
//! lie in the file, or the root alone; [`Group::check_group`] judges the rules of an index on them. What is broken in
//! a whole tree is `BreaksTree` in `specs/Faults.antt`. No call takes memory.
//!
//! ```text
//! let group = Group::new(&bytes[40 * 13..40 * 29], 13, 60);
//! group.check_group(Some((parent, 1)), &levels)?;
//! ```
#![tactic(auto)]

mod group;
mod item;
#[cfg(test)]
mod tests;

pub use group::Group;
pub use item::{NODE, NodeItem};
