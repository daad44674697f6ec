//! Says whether a FlatGeobuf file breaks a rule.
//!
//! [`check`] reads a source front to back, and [`check_slice`] goes through bytes in memory, and takes no memory. Both
//! accept exactly the files that break no rule anywhere (`IsFile` of `fgb_file`), with the number of their features and
//! of the nodes of their index, and else name a rule that is broken at its place in the first unit of the file in which
//! any is (`BreaksFirst`).
//!
//! ```text
//! match check(alloc, &mut source)? {
//!     Verdict::Accepted { features, nodes } => ..,
//!     Verdict::Refused(broken) => ..,
//! }
//! ```
#![tactic(auto)]

mod leaf;
mod slice;
mod source;
#[cfg(test)]
mod tests;
mod verdict;

pub use slice::check_slice;
pub use source::check;
pub use verdict::{CheckError, Verdict};
