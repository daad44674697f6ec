//! The order in which a packer puts features (FlatGeobuf, "Index"): along the Hilbert curve, from its end to its begin,
//! so that features near one another on the map stand near one another in the file.
//!
//! [`order`] gives the numbers of the features in their order, by their boxes. Features without a box come last. There is
//! one such order, as [`orders_are_one`] says.
//!
//! ```text
//! for number in order(alloc, &boxes)? {
//!     let bounds = boxes[number];
//! }
//! ```
#![tactic(auto)]

mod laws;
mod rank;
#[cfg(test)]
mod tests;

pub use laws::orders_are_one;
pub use rank::order;
