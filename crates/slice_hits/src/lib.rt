//! The features of a FlatGeobuf file in memory whose own boxes meet one of several boxes, one after another, in file
//! order.
//!
//! [`Hits`] is an iterator over a slice of bytes, and takes no memory. With an index (FlatGeobuf, "Index") it goes from
//! the root down through the nodes whose boxes meet one of them, and holds no more than the number of the node that comes
//! next; damage that it does not meet brings no error. Without one it goes through all features. What each call gives is
//! `IsStep` in `specs/Giving.antt`, and [`hits_are_found`] says that on a file that breaks no rule these are just the
//! features that a filter over all of them finds.
//!
//! ```text
//! for hit in Hits::new(&bytes, boxes)? {
//!     let found = hit?;
//!     visit(found.number, found.bytes);
//! }
//! ```
#![tactic(auto)]

mod after;
mod features;
mod hits;
mod laws;
mod scan;
mod search;
#[cfg(test)]
mod tests;
mod walk;

pub use found_features::Found;
pub use hits::Hits;
pub use laws::hits_are_found;
