//! One to eight boxes, of which a feature is sought that meets one: a view across the antimeridian
//! needs two, and a screen with insets more.
//!
//! A [`Boxes`] is seen as the list of its boxes, and `meets_any` is the test that lists of features and nodes are
//! filtered by. `SpellsBoxes` says which boxes a word spells. A word spells one list at most.
//!
//! ```text
//! let both = read_boxes("170,-20,180,-10+-180,-20,-170,-10")?;
//! let found = both.meets(point);
//! ```
//!
//! No call takes memory.
#![tactic(auto)]

mod boxes;
mod words;

pub use boxes::Boxes;
pub use words::read_boxes;

#[cfg(test)]
mod tests;
