//! Writes what a query of one to eight boxes finds in a FlatGeobuf file, and for which a condition on a property holds, as
//! one of three texts, in pieces, to a sink.
//!
//! [`write_where`] is `write_found` of `text_query` with the condition's visitor of `fgb_where` around the writer. The
//! condition is bound under the file's header before anything behind that is asked for, and is refused there, with a rule
//! and its place, where it breaks one (`ConditionRefused` in `specs/Written.antt`).
//!
//! ```text
//! let condition = read_condition("pop:ge:1000")?;
//! write_where(alloc, &boxes, 0, condition, Output::Lines, &mut file, &mut out)?;
//! ```
#![tactic(auto)]

mod query;
#[cfg(test)]
mod tests;

pub use query::write_where;
