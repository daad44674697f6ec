//! The features that a query finds, and what takes them.
//!
//! `found` in `specs/Entries.antt` is what a query finds: of all features of a file those whose own boxes meet its box,
//! in file order. A [`Visitor`] is handed one [`Found`] after another, each lent; its type says by four relations what
//! it does with them, and `Takes` in `specs/Visits.antt` what it has done after several. [`Collect`] keeps them.
//!
//! ```text
//! visitor.begin(&header)?;
//! visitor.take(&Found { number, offset, bytes, bounds })?;
//! ```
#![tactic(auto)]

mod collect;
mod stop;
#[cfg(test)]
mod tests;
mod visitor;

pub use collect::Collect;
pub use stop::QueryError;
pub use visitor::{Found, VisitError, Visitor};
