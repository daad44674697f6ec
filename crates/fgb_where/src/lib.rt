//! Conditions on the properties of features: the name of a column, a relation and a value.
//!
//! [`read_condition`] reads the text `NAME:OP:VALUE` (`Spells` in `specs/Words.antt`). [`Condition::bind`] looks its column
//! up in a header, and refuses with a rule and its place where there is no such column, its type has no class, or the
//! value is none of that class (`BreaksCondition` in `specs/Binding.antt`). [`Bound::holds`] says whether the condition
//! holds for a feature (`holds` in `specs/Holding.antt`): where the feature lacks the value it does not, whatever the
//! relation. A [`WhereVisitor`] hands those features for which it holds to another visitor.
//!
//! ```text
//! let condition = read_condition("pop:ge:1000")?;
//! let mut visitor = WhereVisitor::new(alloc, condition, inner);
//! query(alloc, &mut source, &bounds, &mut visitor)
//! ```
#![tactic(auto)]

mod bound;
mod class;
mod kept;
mod places;
#[cfg(test)]
mod tests;
mod values;
mod visitor;
mod words;

pub use bound::Bound;
pub use visitor::WhereVisitor;
pub use words::{Condition, Op, read_condition};
