//! The levels of a packed R-tree (FlatGeobuf, "Index"): which numbers the nodes of each level have, and which nodes
//! are a node's parent and its children.
//!
//! [`Levels`] is seen as the shape of its tree: the number of its leaves, the most children that a node has, and the
//! level of the root (`Shape` in `specs/Levels.antt`). Level 0 holds the leaves, level k has `ceil(n / s^k)` nodes,
//! and nodes are numbered from the root down, level by level. No call takes memory.
//!
//! ```text
//! let levels = Levels::new(179, 16)?;     // 179 leaves under 12 nodes under the root
//! levels.nodes()                          // 192
//! levels.level(0)                         // (13, 192)
//! levels.group(1)                         // (13, 29)
//! ```
#![tactic(auto)]

ghost use Rattle.std.specs.Prelude.{◌≡◌};
ghost use Rattle.level_bounds.specs.Levels.{IsShape, Shape};

mod levels;
#[cfg(test)]
mod tests;

pub use levels::Levels;

/// A number of leaves and a node size have one shape: the level of its root is the first that has one node.
pub fn shapes_are_one()
    ensures { (t u : Shape) → IsShape t → IsShape u → t.leaves ≡ u.leaves → t.node_size ≡ u.node_size → t ≡ u }
{}
