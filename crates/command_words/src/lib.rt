//! The words of the commands, and the texts and statuses that commands end with.
//!
//! [`plan`] says what words ask for, so that a program can open what is read. [`read_words`] gives each call what it is to
//! do, and [`status_of`] writes why it did not come to its end, and gives the status. What words ask for stands in
//! `specs/Requests.antt` and `specs/Words.antt`; the texts of the statuses in `specs/Texts.antt`.
//!
//! ```text
//! match read_words(&["check", "map.fgb"]) {
//!     Some(Asked::Check(file)) => ..
//!     Some(_) | None => refuse_words(err),
//! }
//! ```
#![tactic(auto)]

mod asked;
mod command;
mod files;
mod format;
mod given;
mod numbers;
mod statuses;
mod stop;
#[cfg(test)]
mod tests;
mod texts;
mod words;

pub use asked::{Asked, Converting, FileWord, Making, Packing, Query, Reporting, Serving};
pub use command::{Command, Plan, Target};
pub use format::Format;
pub use statuses::{
    DONE, LARGE, MEMORY, REFUSED, SINK, SOURCE, WRONG_WORDS, refuse_words, status_of,
};
pub use stop::Stop;
pub use words::{plan, read_words};
