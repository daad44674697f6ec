//! Reporters on what a query finds.
//!
//! A [`Reporter`] takes one found feature after another, and says at the end in one line what it has seen. It is seen
//! as plain data, the number of its kind and a list of numbers (`State` in `specs/States.antt`): what a feature makes
//! of it is `step`, whether it takes that is `refuses`, and its line is `text_of` (`specs/Texts.antt`).
//!
//! | Reporter | Its numbers | Refuses | Its line |
//! |---|---|---|---|
//! | [`CountReport`] | features taken | never | `count N` |
//! | [`ExtentReport`] | the four patterns of the join of their boxes | never | `extent` and the four, or `extent none` |
//! | [`SizeReport`] | bytes of their buffers | never | `size N` |
//! | [`CapReport`] | features taken, and a limit | at its limit | `cap N of L` |
//!
//! [`feed_all`] hands a feature to several boxed reporters. Those that refuse it are dropped, and the others keep
//! their order: `fed`.
//!
//! ```text
//! let mut reports: Vec<Box<dyn Reporter>> = Vec::new(alloc);
//! reports.push(Box::new(alloc, CountReport::new())?)?;
//! feed_all(&mut reports, &found);
//! ```
#![tactic(auto)]

mod cap;
mod count;
mod extent;
mod feeding;
mod lines;
mod reporter;
mod size;
#[cfg(test)]
mod tests;

pub use cap::CapReport;
pub use count::CountReport;
pub use extent::ExtentReport;
pub use feeding::feed_all;
pub use reporter::{ReportFault, Reporter};
pub use size::SizeReport;
