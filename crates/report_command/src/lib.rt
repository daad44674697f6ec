//! Reports on what a query finds in a FlatGeobuf file.
//!
//! [`report_run`] feeds boxed reporters with the features whose own boxes meet one of several boxes, and writes the lines of those that
//! are left. A reporter that refuses a feature is dropped. What the reporters show before and after, what is asked for,
//! what is written, and which status comes when stands in `specs/Reports.antt`.
//!
//! ```text
//! let words = ["report", "map.fgb", "--box=0,0,10,10"];
//! let mut reports: Vec<Box<dyn Reporter>> = Vec::new(alloc);
//! reports.push(Box::new(alloc, CountReport::new())?)?;
//! let status = report_run(alloc, &words, &mut file, &mut reports, &mut out, &mut err);
//! ```
#![tactic(auto)]

mod feeder;
mod lines;
#[cfg(test)]
mod tests;
mod top;

pub use top::report_run;
